//! The program's gate.
use edge_io::Gate;

/// A gate that keeps nobody. The program's workers pass it.
pub struct OpenGate;

impl Gate for OpenGate {
    fn before_open(&self, _place: u32) {}
}

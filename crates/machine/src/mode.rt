//! How the kernel is called, and what the present action chooses.

/// How the kernel is called, which stays, and what the present action chooses.
#[derive(Clone, Copy)]
pub struct Mode {
    /// Whether callers share the kernel. Then a thread that found an object by its name is out until its return, which may
    /// come at any later place.
    pub shared: bool,
    /// Whether the present action keeps an object whose last reference it gives up while somebody is out on it.
    pub keep: bool,
    /// Whether a new object takes the least number that no unswept object has. Else it takes the number after the greatest
    /// so far.
    pub reuse: bool,
}

//! Copying bytes of memory.
ghost use Rattle.std.specs.Prelude.{◌≡◌, ◌+◌, ◌^◌, ◌<◌, ◌≤◌, IsTrue, length, take};
ghost use Rattle.procs.specs.Rows.{is_process};
ghost use Rattle.copy_rules.specs.Memory.{bytes_from, copied, overwritten, with_memory};

use copy_rules::{PIECE, Place};
use procs::Procs;

/// So many bytes of a process from a place on, in front of others that mean nothing.
fn read_bytes(procs: &Procs, from: Place, count: u16) -> [u8; PIECE]
    requires few { count ≤ 64 }
    requires place { from.at + count < 2 ^ 16 }
    ensures { take count result ≡ bytes_from procs.now.processes from count }
{
    let mut piece = [0; PIECE];
    for k in 0..count {
        piece[k as usize] = procs.byte_at(from.process, from.at + k);
    }
    piece
}

/// Writes bytes to a process from a place on, and changes nothing else.
fn write_bytes(procs: &mut Procs, to: Place, bytes: &[u8])
    requires process { IsTrue (is_process procs.old to.process) }
    requires inside { to.at + length bytes.now ≤ 1024 }
    ensures { procs.new ≡ record procs.old { processes = with_memory procs.old.processes to.process (overwritten to.at bytes.now) } }
{
    for (k, byte) in bytes.iter().enumerate() {
        procs.set_byte(to.process, to.at + k as u16, *byte);
    }
}

/// Copies a piece of so many bytes, where there is such a process. All are read before one is written.
pub fn copy(procs: &mut Procs, from: Place, to: Place, count: u16)
    requires few { count ≤ 64 }
    requires place { from.at + count < 2 ^ 16 }
    requires inside { to.at + count ≤ 1024 }
    ensures { procs.new ≡ record procs.old { processes = copied procs.old.processes from to count } }
{
    if !procs.is_process(to.process) {
        return;
    }
    let piece = read_bytes(procs, from, count);
    write_bytes(procs, to, &piece[..count as usize]);
}

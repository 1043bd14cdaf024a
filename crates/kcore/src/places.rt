//! How many places the words need that count a kernel's references.
ghost use Rattle.std.specs.Prelude.{◌≡◌, ◌≤◌};
ghost use Rattle.sym_base.specs.declared.limits.TheConstants.Limits.{SHARED_HISTORY};
ghost use Rattle.kcore.specs.KernelView.{places_for};

use machine::uses_again;
use sym_base::Limits;

/// How many places there are beside one for each entry: more than there are objects at boot.
const BOOT_PLACES: u32 = 128;

/// How many places the words of a kernel need for a script of this version, with room for so many entries: one for each number,
/// and in version 2, in which numbers are used again, one for each object that may be made.
pub fn places_for(version: u8, room: u32) -> u32
    requires { room ≤ SHARED_HISTORY }
    ensures { result ≡ places_for version room }
{
    if uses_again(version) {
        room + BOOT_PLACES
    } else {
        Limits::OBJECTS as u32
    }
}

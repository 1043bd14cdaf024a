//! The requests of a thread are taken from every device.
ghost use Rattle.std.specs.Prelude.{◌≡◌, map};
ghost use Rattle.state_rows.specs.RequestChanges.{without};

use state_rows::Request;
use sym_base::ThreadNo;

/// Takes a thread's requests away.
pub fn drop_requests(devices: &mut [Option<Request>], t: ThreadNo)
    ensures { devices.new ≡ map (without t) devices.old }
{
    for slot in devices.iter_mut() {
        drop_request(slot, t);
    }
}

/// Takes a request away, where it is a thread's.
fn drop_request(slot: &mut Option<Request>, t: ThreadNo)
    ensures { slot.new ≡ without t slot.old }
{
    if let Some(request) = *slot {
        if request.thread == t {
            *slot = None;
        }
    }
}

//! Moves in the table of requests.
ghost use Rattle.std.specs.Prelude.{◌≡◌};
ghost use Rattle.machine.specs.RequestMoves.{request_moved};
ghost use Rattle.table_moves.specs.RequestMoved.{CanRequest};

use machine::RequestMove;
use requests::Requests;
use sym_base::ThreadNo;

/// A device gets a request, whose status is pending from now on.
fn begin(requests: &mut Requests, device: u8, thread: ThreadNo, status: u8)
    requires { CanRequest (RequestMove.Begin device thread status) requests.old }
    ensures { requests.new ≡ request_moved (RequestMove.Begin device thread status) requests.old }
{
    let _ = requests.set_pending(thread, status);
    let _ = requests.begin(device, thread, status);
}

/// A device's request is completed: its status has the code, and its thread one signal more.
fn complete(requests: &mut Requests, device: u8, thread: ThreadNo, status: u8, code: i32)
    requires { CanRequest (RequestMove.Complete device thread status code) requests.old }
    ensures { requests.new ≡ request_moved (RequestMove.Complete device thread status code) requests.old }
{
    let _ = requests.finish_device(device);
    requests.signal(thread, status, code);
}

/// One move in the table.
pub fn move_request(requests: &mut Requests, change: RequestMove)
    requires { CanRequest change requests.old }
    ensures { requests.new ≡ request_moved change requests.old }
{
    match change {
        RequestMove::Begin(device, thread, status) => begin(requests, device, thread, status),
        RequestMove::Complete(device, thread, status, code) => {
            complete(requests, device, thread, status, code);
        }
        RequestMove::SetPending(thread, status) => {
            let _ = requests.set_pending(thread, status);
        }
        RequestMove::Signal(thread, status, code) => requests.signal(thread, status, code),
        RequestMove::DropAll(thread) => requests.drop_all(thread),
        RequestMove::TakeSignal(thread) => {
            let _ = requests.take_signal(thread);
        }
        RequestMove::Reply(thread, code) => requests.signal_sync(thread, code),
    }
}

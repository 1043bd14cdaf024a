//! Moves in the rows of requests, made on the plain machine's lists.
ghost use Rattle.std.specs.Prelude.{◌≡◌, IfOk, OnOk, map, slice_set};
ghost use Rattle.machine.specs.RequestMoves.{request_moved};
ghost use Rattle.state_rows.specs.RequestChanges.{after_begin, after_drop, after_finish, after_set_pending, after_signal, after_take, with_status, without};

use crate::nano::{one_more, set_count};
use machine::{RequestMove, RequestRows, set_row};
use plain_reads::{request_at, request_signals};
use state_rows::{PENDING, Request, STATUSES};
use std::alloc::Global;
use sym_base::{Items, NoMemory, ObjNo, ThreadNo};

/// The values of a thread's statuses, of which one is another.
fn with_value(values: [i32; STATUSES], status: u8, value: i32) -> [i32; STATUSES]
    ensures { result ≡ slice_set values status value }
{
    let mut values = values;
    let at = status as usize;
    if at < values.len() {
        values[at] = value;
    }
    values
}

/// A thread's status gets a value.
fn set_status(statuses: &mut Items<[i32; STATUSES]>, thread: ThreadNo, status: u8, value: i32)
    ensures { statuses.new ≡ with_status statuses.old thread status value }
{
    let at = thread.0 as usize;
    if at < statuses.len() {
        let values = with_value(statuses.get(at), status, value);
        statuses.set(at, values);
    }
}

/// The status is pending, and the device has the request, where it had none.
fn begin(rows: &mut RequestRows, device: u8, thread: ThreadNo, status: u8)
    ensures { rows.new ≡ after_begin (after_set_pending rows.old thread status) device thread status }
{
    set_status(&mut rows.statuses, thread, status, PENDING);
    if request_at(rows, device).is_none() {
        let request = Some(Request { thread, status });
        set_row(&mut rows.devices, ObjNo(device as u16), request);
    }
}

/// The status has the code, and its thread one signal more.
fn signal(rows: &mut RequestRows, thread: ThreadNo, status: u8, code: i32)
    ensures { rows.new ≡ after_signal rows.old thread status code }
{
    let count = one_more(request_signals(rows, thread));
    set_status(&mut rows.statuses, thread, status, code);
    set_count(&mut rows.signals, thread, count);
}

/// The device has no request.
fn finish(rows: &mut RequestRows, device: u8)
    ensures { rows.new ≡ after_finish rows.old device }
{
    set_row(&mut rows.devices, ObjNo(device as u16), None);
}

/// The thread has one signal less.
fn take_signal(rows: &mut RequestRows, thread: ThreadNo)
    ensures { rows.new ≡ after_take rows.old thread }
{
    let count = request_signals(rows, thread).saturating_sub(1);
    set_count(&mut rows.signals, thread, count);
}

/// A request, unless it is the thread's.
fn unless_of(thread: ThreadNo, request: Option<Request>) -> Option<Request>
    ensures { result ≡ without thread request }
{
    match request {
        Some(request) if request.thread.0 == thread.0 => None,
        _ => request,
    }
}

/// The devices' requests but for those of the thread.
fn dropped(
    alloc: Global,
    devices: &[Option<Request>],
    thread: ThreadNo,
) -> Result<Items<Option<Request>>, NoMemory>
    ensures { IfOk result (λ left. left ≡ map (without thread) devices.now) }
{
    let mut left = Vec::new(alloc);
    for request in devices {
        left.push(unless_of(thread, *request))?;
    }
    Ok(Items::new(left))
}

/// No device has a request of the thread any more.
fn drop_all(alloc: Global, rows: &mut RequestRows, thread: ThreadNo) -> Result<(), NoMemory>
    ensures { OnOk result (rows.new ≡ after_drop rows.old thread) }
{
    rows.devices = dropped(alloc, rows.devices.as_slice(), thread)?;
    Ok(())
}

/// One move in the rows of requests.
pub fn make_request_move(
    alloc: Global,
    rows: &mut RequestRows,
    change: RequestMove,
) -> Result<(), NoMemory>
    ensures { OnOk result (rows.new ≡ request_moved change rows.old) }
{
    match change {
        RequestMove::Begin(device, thread, status) => begin(rows, device, thread, status),
        RequestMove::Complete(device, thread, status, code) => {
            finish(rows, device);
            signal(rows, thread, status, code);
        }
        RequestMove::SetPending(thread, status) => {
            set_status(&mut rows.statuses, thread, status, PENDING);
        }
        RequestMove::Signal(thread, status, code) => signal(rows, thread, status, code),
        RequestMove::DropAll(thread) => return drop_all(alloc, rows, thread),
        RequestMove::TakeSignal(thread) => take_signal(rows, thread),
        RequestMove::Reply(thread, code) => set_count(&mut rows.replies, thread, code),
    }
    Ok(())
}

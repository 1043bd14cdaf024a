//! `request`, `cancel`, `waitany`, `waitfor` and `status`: asynchronous requests of devices (the chapter on
//! inter-thread communication).
ghost use Rattle.std.specs.Prelude.{◌≡◌, [], ◌∷◌};
ghost use Rattle.machine.specs.Decide.{answer};
ghost use Rattle.machine.specs.RequestCalls.{request_do, cancel_status, cancel_do, waitany_do, waitany_step, waitfor_do, waitfor_step, status_do};
ghost use Rattle.machine.specs.declared.moves.Move.TheVariants.{Requests};
ghost use Rattle.machine.specs.declared.request_move.RequestMove.TheVariants.{TakeSignal};
ghost use Rattle.state_rows.specs.Requests.{status_of};

use entry_log::{Part, Step, Word};
use machine::{Decision, Move, RequestMove, Waiting};
use readings::Reads;
use state_rows::Request;
use step_answers::{answer_after, answer_at_once, is_pending, refuse, refuse_holder, wait_for};
use sym_base::{Error, ThreadNo};

/// The device gets the request, unless it has one or the status is pending.
pub fn request_do<R: Reads>(
    decision: &mut Decision,
    reads: &R,
    thread: ThreadNo,
    device: u8,
    status: u8,
)
    ensures { decision.new ≡ request_do (R.state reads.now) thread device status }
{
    let step = Step::Of(Word::Request, Part::Do);
    if is_pending(reads, thread, status) || reads.request_at(device).is_some() {
        return refuse(decision, thread, step, Error::InUse);
    }
    let begin = Move::Requests(RequestMove::Begin(device, thread, status));
    answer_after(decision, thread, step, begin, 0)
}

/// The status of a request, where the request is the thread's.
fn status_of(thread: ThreadNo, request: Option<Request>) -> Option<u8>
    ensures { result ≡ status_of thread request }
{
    match request {
        Some(request) if request.thread.0 == thread.0 => Some(request.status),
        _ => None,
    }
}

/// The request of this status is completed as cancelled, where there is one.
fn cancel_status(decision: &mut Decision, thread: ThreadNo, device: u8, status: Option<u8>)
    ensures { decision.new ≡ cancel_status thread device status }
{
    let step = Step::Of(Word::Cancel, Part::Do);
    let Some(status) = status else {
        return refuse(decision, thread, step, Error::NotFound);
    };
    let code = Error::Cancel.code();
    let complete = Move::Requests(RequestMove::Complete(device, thread, status, code));
    answer_after(decision, thread, step, complete, 0)
}

/// The thread's request of the device is completed as cancelled, where there is one.
pub fn cancel_do<R: Reads>(decision: &mut Decision, reads: &R, thread: ThreadNo, device: u8)
    ensures { decision.new ≡ cancel_do (R.state reads.now) thread device }
{
    cancel_status(
        decision,
        thread,
        device,
        status_of(thread, reads.request_at(device)),
    )
}

/// The thread takes a signal, and the instruction answers this number.
fn take_signal(decision: &mut Decision, thread: ThreadNo, step: Step, code: i32)
    ensures { decision.new ≡ answer thread step (Requests (TakeSignal thread) ∷ []) code }
{
    let take = Move::Requests(RequestMove::TakeSignal(thread));
    answer_after(decision, thread, step, take, code)
}

/// The thread takes a signal where one is there. Else it waits for one.
fn waitany_do<R: Reads>(decision: &mut Decision, reads: &R, thread: ThreadNo)
    ensures { decision.new ≡ waitany_do (R.state reads.now) thread }
{
    let step = Step::Of(Word::Waitany, Part::Do);
    if reads.request_signals(thread) == 0 {
        return wait_for(decision, thread, step, Waiting::Any);
    }
    take_signal(decision, thread, step, 0)
}

/// First the signal is taken or waited for, and when the wait is over it is taken. A thread that holds a fast
/// mutex is refused.
pub fn waitany_step<R: Reads>(
    decision: &mut Decision,
    reads: &R,
    thread: ThreadNo,
    part: Option<Part>,
)
    ensures { decision.new ≡ waitany_step (R.state reads.now) thread part }
{
    if part.is_some() {
        return take_signal(decision, thread, Step::Of(Word::Waitany, Part::Done), 0);
    }
    if refuse_holder(decision, reads, thread, Step::Of(Word::Waitany, Part::Do)) {
        return;
    }
    waitany_do(decision, reads, thread)
}

/// The thread takes a signal where the status is completed and a signal is there. Else it waits for both.
fn waitfor_do<R: Reads>(decision: &mut Decision, reads: &R, thread: ThreadNo, status: u8)
    ensures { decision.new ≡ waitfor_do (R.state reads.now) thread status }
{
    let step = Step::Of(Word::Waitfor, Part::Do);
    if is_pending(reads, thread, status) || reads.request_signals(thread) == 0 {
        return wait_for(decision, thread, step, Waiting::Status(status));
    }
    take_signal(decision, thread, step, reads.value_of(thread, status))
}

/// First the signal is taken or waited for, and when the wait is over it is taken; the status is answered. A
/// thread that holds a fast mutex is refused.
pub fn waitfor_step<R: Reads>(
    decision: &mut Decision,
    reads: &R,
    thread: ThreadNo,
    status: u8,
    part: Option<Part>,
)
    ensures { decision.new ≡ waitfor_step (R.state reads.now) thread status part }
{
    if part.is_some() {
        let step = Step::Of(Word::Waitfor, Part::Done);
        return take_signal(decision, thread, step, reads.value_of(thread, status));
    }
    if refuse_holder(decision, reads, thread, Step::Of(Word::Waitfor, Part::Do)) {
        return;
    }
    waitfor_do(decision, reads, thread, status)
}

/// The value of a status is answered.
pub fn status_do<R: Reads>(decision: &mut Decision, reads: &R, thread: ThreadNo, status: u8)
    ensures { decision.new ≡ status_do (R.state reads.now) thread status }
{
    let step = Step::Of(Word::Status, Part::Do);
    answer_at_once(decision, thread, step, reads.value_of(thread, status))
}

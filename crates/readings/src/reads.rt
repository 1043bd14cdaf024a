//! What decisions read of a state. The plain machine keeps it as lists and the kernel as tables of its own,
//! and both decide by the same functions.
ghost use Rattle.std.specs.Prelude.{◌≡◌, ◌<◌, [], IfSome, is_some, option_copied, slice_get, slice_index_or};
ghost use Rattle.machine.specs.Find.{find_object};
ghost use Rattle.machine.specs.Holdings.{first_used, has_one_left, held_servers};
ghost use Rattle.machine.specs.LogonMoves.{logons_on};
ghost use Rattle.machine.specs.Reaping.{buried_by};
ghost use Rattle.state_rows.specs.HandleSlots.{look};
ghost use Rattle.machine.specs.Choice.{priority_of};
ghost use Rattle.machine.specs.Handles.{process_handle, thread_handle};
ghost use Rattle.machine.specs.Memory.{byte_of};
ghost use Rattle.machine.specs.Moves.{next_object, no_number_left};
ghost use Rattle.state_rows.specs.HandleNumbers.{index_of, is_local};
ghost use Rattle.state_rows.specs.Locks.{owner_at, count_at, best_waiter};
ghost use Rattle.machine.specs.Rows.{object_of, thread_of, table_of, first_owed};
ghost use Rattle.state_rows.specs.declared.deferred.Item.TheVariants.{Move};
ghost use Rattle.state_rows.specs.Deferred.{next_of as next_call_of, next_immediate, is_queued, queue_of};
ghost use Rattle.state_rows.specs.MessageRows.{message_of, is_full};
ghost use Rattle.state_rows.specs.MessageChanges.{next_of};
ghost use Rattle.state_rows.specs.ServerRows.{server_at, session_at};
ghost use Rattle.state_rows.specs.Nano.{signal_count, suspend_count, critical_count, want_of, holder_of, held_by, is_protected};
ghost use Rattle.state_rows.specs.ObjectRows.{is_taken};
ghost use Rattle.state_rows.specs.Requests.{request_at, value_of, reply_of, signal_count as request_signals};

use machine::{Holding, NewHandle, Owed, ThreadRow};
use script_types::Script;
use state_rows::{Item, Message, ObjectRow, Owner, Request, ServerRow, SessionRow};
use sym_base::{Kind, MsgNo, Name, ObjNo, Slots, ThreadNo};

/// A state that can be read. A number without a row reads as none, and a count without one as 0.
pub trait Reads {
    ghost use Rattle.machine.specs.declared.state.State.{State};

    /// The state that it stands for.
    ghost state: { Self → State };

    /// What has to hold of it so that its handles and counts can be read, and the number of the fast mutex
    /// that a thread holds.
    ghost is_readable: { Self → Type 0 };

    /// The object of this number, where it was made and isn't swept.
    fn object(&self, object: ObjNo) -> Option<ObjectRow>
        ensures { result ≡ object_of (state self.now) object };

    /// The thread of this number.
    fn thread(&self, thread: ThreadNo) -> Option<&ThreadRow>
        ensures { option_copied result ≡ thread_of (state self.now) thread };

    /// The oldest of what a thread owes.
    fn first_owed(&self, thread: ThreadNo) -> Option<Owed>
        ensures { result ≡ first_owed (state self.now) thread };

    /// The object that a number names as a handle in the table of a process or a thread.
    fn handle(&self, owner: ObjNo, handle: u32) -> Option<ObjNo>
        requires { is_readable self.now }
        ensures object { result ≡ look (is_local handle) (table_of (state self.now) owner) handle }
        ensures index { IfSome result (λ o. index_of handle < 256) }
        ensures positive { IfSome result (λ o. handle < 2147483648) };

    /// The handle that a process's table gives next, None where no slot is free.
    fn process_handle(&self, process: ObjNo) -> Option<NewHandle>
        requires { is_readable self.now }
        ensures handle { result ≡ process_handle (state self.now) process }
        ensures positive { IfSome result (λ handle. handle.number < 2147483648) };

    /// The handle that a thread's table gives next, None where no slot is free.
    fn thread_handle(&self, thread: ThreadNo) -> Option<NewHandle>
        requires { is_readable self.now }
        ensures handle { result ≡ thread_handle (state self.now) thread }
        ensures positive { IfSome result (λ handle. handle.number < 2147483648) };

    /// Whether an unswept object has this kind and name.
    fn is_taken(&self, kind: Kind, name: &Name) -> bool
        ensures { result ≡ is_taken kind name.now (state self.now).references.objects };

    /// The object that a find by kind and name finds.
    fn find(&self, kind: Kind, name: &Name) -> Option<ObjNo>
        requires { is_readable self.now }
        ensures { result ≡ find_object (state self.now) kind name.now };

    /// Whether callers share the kernel.
    fn is_shared(&self) -> bool
        ensures { result ≡ (state self.now).mode.shared };

    /// The number that a new object gets.
    fn next_object(&self) -> ObjNo
        requires { is_readable self.now }
        ensures { result ≡ next_object (state self.now) };

    /// Whether no number is left for a new object.
    fn no_number_left(&self) -> bool
        requires { is_readable self.now }
        ensures { result ≡ no_number_left (state self.now) };

    /// How many signals are at a thread's fast semaphore.
    fn signal_count(&self, thread: ThreadNo) -> u64
        ensures { result ≡ signal_count (state self.now).synchronization.nano thread };

    /// How many suspensions of a thread aren't resumed.
    fn suspend_count(&self, thread: ThreadNo) -> u8
        ensures { result ≡ suspend_count (state self.now).synchronization.nano thread };

    /// How many critical sections a thread is in.
    fn critical_count(&self, thread: ThreadNo) -> u64
        ensures { result ≡ critical_count (state self.now).synchronization.nano thread };

    /// The fast mutex that a thread wants.
    fn want(&self, thread: ThreadNo) -> Option<u8>
        ensures { result ≡ want_of (state self.now).synchronization.nano thread };

    /// The thread that holds a fast mutex.
    fn holder(&self, fast: u8) -> Option<ThreadNo>
        ensures { result ≡ holder_of (state self.now).synchronization.nano fast };

    /// The fast mutex that a thread holds.
    fn held(&self, thread: ThreadNo) -> Option<u8>
        requires { is_readable self.now }
        ensures { result ≡ held_by (state self.now).synchronization.nano thread };

    /// Whether a thread holds a fast mutex.
    fn is_holding(&self, thread: ThreadNo) -> bool
        ensures { result ≡ is_some (held_by (state self.now).synchronization.nano thread) };

    /// Whether a thread holds a fast mutex or is in a critical section.
    fn is_protected(&self, thread: ThreadNo) -> bool
        ensures { result ≡ is_protected (state self.now).synchronization.nano thread };

    /// The call of a queue of deferred function calls that runs next.
    fn next_call(&self, queue: u8) -> Option<usize>
        ensures { result ≡ next_call_of (state self.now).synchronization.deferred queue };

    /// The item of the immediate queue that comes next.
    fn next_immediate(&self) -> Option<Item>
        ensures { result ≡ next_immediate (state self.now).synchronization.deferred };

    /// Whether a deferred function call stands in the immediate queue or in its own.
    fn is_queued(&self, dfc: u8) -> bool
        ensures { result ≡ is_queued (state self.now).synchronization.deferred (Move dfc) };

    /// The queue of a deferred function call.
    fn queue_of(&self, dfc: usize) -> u8
        ensures { result ≡ queue_of (state self.now).synchronization.deferred dfc };

    /// The request that a device has to complete.
    fn request_at(&self, device: u8) -> Option<Request>
        ensures { result ≡ request_at (state self.now).synchronization.requests device };

    /// The value of a thread's status.
    fn value_of(&self, thread: ThreadNo, status: u8) -> i32
        ensures { result ≡ value_of (state self.now).synchronization.requests thread status };

    /// How many signals are at a thread's request semaphore.
    fn request_signals(&self, thread: ThreadNo) -> u64
        ensures { result ≡ request_signals (state self.now).synchronization.requests thread };

    /// Who owns a mutex, and how often.
    fn lock_owner(&self, mutex: ObjNo) -> Option<Owner>
        ensures { result ≡ owner_at (state self.now).synchronization.locks mutex };

    /// The count of a semaphore.
    fn lock_count(&self, semaphore: ObjNo) -> u32
        ensures { result ≡ count_at (state self.now).synchronization.locks semaphore };

    /// The waiter of a mutex or semaphore that is served next.
    fn best_waiter(&self, object: ObjNo) -> Option<ThreadNo>
        requires { is_readable self.now }
        ensures { result ≡ best_waiter (priority_of (state self.now)) (state self.now).synchronization.locks object };

    /// The first of the mutexes that a thread holds.
    fn first_mutex(&self, thread: ThreadNo) -> Option<ObjNo>
        ensures { result ≡ slice_get (slice_index_or (state self.now).synchronization.mutexes thread.0 []) 0 };

    /// The first of the logons on a thread: the thread that made it, and its status.
    fn first_logon(&self, thread: ThreadNo) -> Option<(ThreadNo, u8)>
        ensures { result ≡ slice_get (logons_on (state self.now).synchronization.logons thread) 0 };

    /// The first of what a thread has of its closing servers: a message, a linked session, or a server of which nothing else
    /// is left.
    fn first_work(&self, thread: ThreadNo) -> Option<Holding>
        requires { is_readable self.now }
        ensures { result ≡ slice_get (held_servers (state self.now) thread) 0 };

    /// The row of a server.
    fn server(&self, object: ObjNo) -> Option<ServerRow>
        ensures { result ≡ server_at (state self.now).serving.servers object };

    /// The row of a session.
    fn session(&self, object: ObjNo) -> Option<SessionRow>
        ensures { result ≡ session_at (state self.now).serving.servers object };

    /// An outstanding message.
    fn message(&self, number: MsgNo) -> Option<Message>
        requires { is_readable self.now }
        ensures { result ≡ message_of (state self.now).serving.messages number };

    /// The first message that a server hasn't taken.
    fn next_message(&self, server: ObjNo) -> Option<MsgNo>
        requires { is_readable self.now }
        ensures message { result ≡ next_of (state self.now).serving.messages server }
        ensures positive { IfSome result (λ message. message.0 < 2147483648) };

    /// Whether all the slots that a session may use are used.
    fn is_full(&self, session: ObjNo, slots: Slots) -> bool
        requires { is_readable self.now }
        ensures { result ≡ is_full (state self.now).serving.messages session slots };

    /// The greatest message number so far, 0 where no message was accepted.
    fn accepted(&self) -> u32
        requires { is_readable self.now }
        ensures number { result ≡ (state self.now).serving.messages.accepted }
        ensures positive { result < 2147483648 };

    /// The reply to a thread's synchronous message.
    fn reply_of(&self, thread: ThreadNo) -> i32
        ensures { result ≡ reply_of (state self.now).synchronization.requests thread };

    /// The first handle, by index, of the table of a process or a thread, and its object.
    fn first_handle(&self, owner: ObjNo) -> Option<(u8, ObjNo)>
        requires { is_readable self.now }
        ensures { result ≡ first_used 0 (table_of (state self.now) owner) };

    /// Whether just one thread of a process isn't cleaned yet.
    fn has_one_left(&self, process: ObjNo) -> bool
        requires { is_readable self.now }
        ensures { result ≡ has_one_left (state self.now) process };

    /// The cleaned thread whose burial a call is.
    fn buried_by(&self, script: &Script, dfc: usize) -> Option<ThreadNo>
        requires { is_readable self.now }
        ensures { result ≡ buried_by script.now (state self.now) dfc };

    /// A byte of a process's memory, 0 past its end.
    fn byte(&self, process: ObjNo, at: u16) -> u8
        ensures { result ≡ byte_of (state self.now).services.memories process at };
}

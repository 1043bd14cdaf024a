//! The plain machine's state, read by decisions.
use crate::Reads;
use machine::{
    Holding, NewHandle, Owed, State, ThreadRow, critical_count, first_owed, held_place,
    is_protected, mutex_holder, object_of, process_handle, row_of, signal_count, suspend_count,
    table_of, thread_handle, thread_in, wanted_mutex,
};
use plain_reads::{
    best_waiter, buried_by, byte_of, find_object, first_handle, first_in, first_work, has_one_left,
    is_full, is_queued, is_taken, lock_count, message_of, next_immediate, next_message,
    next_object, next_of, no_number_left, queue_of, reply_of, request_at, request_signals,
    server_at, session_at, value_of,
};
use script_types::Script;
use state_rows::{
    Item, Message, ObjectRow, Owner, Request, ServerRow, SessionRow, free_index, is_local, look,
};
use sym_base::{Kind, MsgNo, Name, ObjNo, Slots, ThreadNo};

impl Reads for State {
    ghost use Rattle.readings.specs.Readable.{IsReadable};

    ghost state = { λ S. S };

    ghost is_readable = { λ S. IsReadable S };

    fn object(&self, object: ObjNo) -> Option<ObjectRow> {
        object_of(self, object)
    }

    fn thread(&self, thread: ThreadNo) -> Option<&ThreadRow> {
        thread_in(&self.references.threads, thread)
    }

    fn first_owed(&self, thread: ThreadNo) -> Option<Owed> {
        first_owed(self, thread)
    }

    #[tactic(auto, using(machine::proofs::HandleNumbers::look_small))]
    fn handle(&self, owner: ObjNo, handle: u32) -> Option<ObjNo> {
        look(is_local(handle), table_of(self, owner), handle)
    }

    fn process_handle(&self, process: ObjNo) -> Option<NewHandle> {
        let table = table_of(self, process);
        process_handle(process, table, free_index(table))
    }

    fn thread_handle(&self, thread: ThreadNo) -> Option<NewHandle> {
        let table = table_of(self, thread);
        thread_handle(thread, table, free_index(table))
    }

    fn is_taken(&self, kind: Kind, name: &Name) -> bool {
        is_taken(kind, name, self.references.objects.as_slice())
    }

    fn find(&self, kind: Kind, name: &Name) -> Option<ObjNo> {
        find_object(self, kind, name)
    }

    fn is_shared(&self) -> bool {
        self.mode.shared
    }

    fn next_object(&self) -> ObjNo {
        next_object(self)
    }

    fn no_number_left(&self) -> bool {
        no_number_left(self)
    }

    fn signal_count(&self, thread: ThreadNo) -> u64 {
        signal_count(&self.synchronization.nano, thread)
    }

    fn suspend_count(&self, thread: ThreadNo) -> u8 {
        suspend_count(&self.synchronization.nano, thread)
    }

    fn critical_count(&self, thread: ThreadNo) -> u64 {
        critical_count(&self.synchronization.nano, thread)
    }

    fn want(&self, thread: ThreadNo) -> Option<u8> {
        wanted_mutex(&self.synchronization.nano, thread)
    }

    fn holder(&self, fast: u8) -> Option<ThreadNo> {
        mutex_holder(&self.synchronization.nano, fast)
    }

    fn held(&self, thread: ThreadNo) -> Option<u8> {
        let place = held_place(self.synchronization.nano.holders.as_slice(), thread)?;
        Some(place as u8)
    }

    fn is_holding(&self, thread: ThreadNo) -> bool {
        held_place(self.synchronization.nano.holders.as_slice(), thread).is_some()
    }

    fn is_protected(&self, thread: ThreadNo) -> bool {
        is_protected(&self.synchronization.nano, thread)
    }

    fn next_call(&self, queue: u8) -> Option<usize> {
        next_of(&self.synchronization.deferred, queue)
    }

    fn next_immediate(&self) -> Option<Item> {
        next_immediate(&self.synchronization.deferred)
    }

    fn is_queued(&self, dfc: u8) -> bool {
        is_queued(&self.synchronization.deferred, Item::Move(dfc))
    }

    fn queue_of(&self, dfc: usize) -> u8 {
        queue_of(&self.synchronization.deferred, dfc)
    }

    fn request_at(&self, device: u8) -> Option<Request> {
        request_at(&self.synchronization.requests, device)
    }

    fn value_of(&self, thread: ThreadNo, status: u8) -> i32 {
        value_of(&self.synchronization.requests, thread, status)
    }

    fn request_signals(&self, thread: ThreadNo) -> u64 {
        request_signals(&self.synchronization.requests, thread)
    }

    fn lock_owner(&self, mutex: ObjNo) -> Option<Owner> {
        row_of(&self.synchronization.locks.owners, mutex)
    }

    fn lock_count(&self, semaphore: ObjNo) -> u32 {
        lock_count(self, semaphore)
    }

    fn best_waiter(&self, object: ObjNo) -> Option<ThreadNo> {
        best_waiter(self, object)
    }

    fn first_mutex(&self, thread: ThreadNo) -> Option<ObjNo> {
        first_in(&self.synchronization.mutexes, thread)
    }

    fn first_logon(&self, thread: ThreadNo) -> Option<(ThreadNo, u8)> {
        first_in(&self.synchronization.logons, thread)
    }

    fn first_work(&self, thread: ThreadNo) -> Option<Holding> {
        first_work(self, thread)
    }

    fn server(&self, object: ObjNo) -> Option<ServerRow> {
        server_at(&self.serving.servers, object)
    }

    fn session(&self, object: ObjNo) -> Option<SessionRow> {
        session_at(&self.serving.servers, object)
    }

    fn message(&self, number: MsgNo) -> Option<Message> {
        message_of(&self.serving.messages, number)
    }

    #[tactic(auto, using(crate::proofs::Numbers::small_next))]
    fn next_message(&self, server: ObjNo) -> Option<MsgNo> {
        next_message(&self.serving.messages, server)
    }

    fn is_full(&self, session: ObjNo, slots: Slots) -> bool {
        is_full(&self.serving.messages, session, slots)
    }

    fn accepted(&self) -> u32 {
        self.serving.messages.accepted
    }

    fn reply_of(&self, thread: ThreadNo) -> i32 {
        reply_of(&self.synchronization.requests, thread)
    }

    fn first_handle(&self, owner: ObjNo) -> Option<(u8, ObjNo)> {
        first_handle(self, owner)
    }

    fn has_one_left(&self, process: ObjNo) -> bool {
        has_one_left(self, process)
    }

    fn buried_by(&self, script: &Script, dfc: usize) -> Option<ThreadNo> {
        buried_by(self, script, dfc)
    }

    fn byte(&self, process: ObjNo, at: u16) -> u8 {
        byte_of(self.services.memories.as_slice(), process, at)
    }
}

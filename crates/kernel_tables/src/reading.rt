//! What decisions read of the kernel's tables.
ghost use Rattle.std.specs.Prelude.{◌≡◌, ℕ, ◌<◌, ◌≤◌, [], None, length, IfSome};
ghost use Rattle.std.specs.List.{slice_index_or};
ghost use Rattle.state_rows.specs.HandleSlots.{free_index, slot_at};
ghost use Rattle.machine.specs.Holdings.{first_used};
ghost use Rattle.kernel_tables.specs.Noted.{AreKept};
ghost use Rattle.kernel_tables.specs.StateOf.{slots_of, state_of};

use crate::tables::Tables;
use crate::work::first_work;
use handles::Handles;
use machine::{Holding, NewHandle, Owed, ThreadRow};
use readings::{Reads, burial_place, is_one_left};
use ref_words::RefWords;
use script_types::Script;
use state_rows::{
    HandleSlot, Item, Message, ObjectRow, Owner, Request, ServerRow, SessionRow, is_local, look,
};
use sym_base::{Items, Kind, Limits, MsgNo, Name, ObjNo, Slots, ThreadNo};
use table_moves::first_owed;

/// The places of the handle table of a process or a thread, none where there is no such table.
fn slots_of(handles: &Items<Handles>, owner: ObjNo) -> &[HandleSlot]
    ensures slots { result.now ≡ slice_index_or (slots_of handles.now) owner.0 [] }
    ensures few { length result.now ≤ 256 }
    ensures instances { (i : ℕ) → (slot_at result.now i).instance ≤ 16383 }
{
    match handles.as_slice().get(owner.0 as usize) {
        Some(table) => table.slots(),
        None => &[],
    }
}

/// The least free index of the handle table of a process or a thread, the number of its places where none is free.
fn free_index_of(handles: &Items<Handles>, owner: ObjNo) -> usize
    ensures { result ≡ free_index (slice_index_or (slots_of handles.now) owner.0 []) }
{
    match handles.as_slice().get(owner.0 as usize) {
        Some(table) => table.free_index(),
        None => 0,
    }
}

/// The first handle of the table of a process or a thread, none where there is no such table.
fn first_handle_of(handles: &Items<Handles>, owner: ObjNo) -> Option<(u8, ObjNo)>
    ensures { result ≡ first_used 0 (slice_index_or (slots_of handles.now) owner.0 []) }
{
    match handles.as_slice().get(owner.0 as usize) {
        Some(table) => table.first(),
        None => None,
    }
}

impl<W: RefWords + Drop> Reads for Tables<W> {
    ghost state = { λ tables. state_of tables };

    ghost is_readable = { λ tables. AreKept tables };

    fn object(&self, object: ObjNo) -> Option<ObjectRow> {
        self.objects.row(object)
    }

    fn thread(&self, thread: ThreadNo) -> Option<&ThreadRow> {
        self.procs.thread(thread)
    }

    fn first_owed(&self, thread: ThreadNo) -> Option<Owed> {
        first_owed(&self.cleanup, thread)
    }

    fn handle(&self, owner: ObjNo, handle: u32) -> Option<ObjNo> {
        look(is_local(handle), slots_of(&self.handles, owner), handle)
    }

    fn process_handle(&self, process: ObjNo) -> Option<NewHandle> {
        let free = free_index_of(&self.handles, process);
        machine::process_handle(process, slots_of(&self.handles, process), free)
    }

    fn thread_handle(&self, thread: ThreadNo) -> Option<NewHandle> {
        let free = free_index_of(&self.handles, thread);
        machine::thread_handle(thread, slots_of(&self.handles, thread), free)
    }

    fn is_taken(&self, kind: Kind, name: &Name) -> bool {
        self.objects.is_taken(kind, name)
    }

    fn find(&self, kind: Kind, name: &Name) -> Option<ObjNo> {
        self.objects.find(kind, name)
    }

    fn is_shared(&self) -> bool {
        self.mode.shared
    }

    fn next_object(&self) -> ObjNo {
        ObjNo(self.objects.next() as u16)
    }

    fn no_number_left(&self) -> bool {
        self.objects.next() == Limits::OBJECTS
    }

    fn signal_count(&self, thread: ThreadNo) -> u64 {
        self.nano.signal_count(thread)
    }

    fn suspend_count(&self, thread: ThreadNo) -> u8 {
        self.nano.suspend_count(thread)
    }

    fn critical_count(&self, thread: ThreadNo) -> u64 {
        self.nano.critical_count(thread)
    }

    fn want(&self, thread: ThreadNo) -> Option<u8> {
        self.nano.want(thread)
    }

    fn holder(&self, fast: u8) -> Option<ThreadNo> {
        self.nano.holder(fast)
    }

    fn held(&self, thread: ThreadNo) -> Option<u8> {
        self.nano.held(thread)
    }

    fn is_holding(&self, thread: ThreadNo) -> bool {
        self.nano.held(thread).is_some()
    }

    fn is_protected(&self, thread: ThreadNo) -> bool {
        self.nano.protected(thread)
    }

    fn next_call(&self, queue: u8) -> Option<usize> {
        self.deferred.next_call(queue)
    }

    fn next_immediate(&self) -> Option<Item> {
        self.deferred.next_immediate()
    }

    fn is_queued(&self, dfc: u8) -> bool {
        self.deferred.is_queued(dfc)
    }

    fn queue_of(&self, dfc: usize) -> u8 {
        self.deferred.queue_of(dfc)
    }

    fn request_at(&self, device: u8) -> Option<Request> {
        self.requests.request_at(device)
    }

    fn value_of(&self, thread: ThreadNo, status: u8) -> i32 {
        self.requests.value(thread, status)
    }

    fn request_signals(&self, thread: ThreadNo) -> u64 {
        self.requests.signal_count(thread)
    }

    fn first_mutex(&self, thread: ThreadNo) -> Option<ObjNo> {
        self.cleanup.first_mutex(thread)
    }

    fn first_logon(&self, thread: ThreadNo) -> Option<(ThreadNo, u8)> {
        self.cleanup.first_logon(thread)
    }

    #[inline(always)]
    fn first_work(&self, thread: ThreadNo) -> Option<Holding> {
        first_work(self, thread)
    }

    fn server(&self, object: ObjNo) -> Option<ServerRow> {
        self.servers.server_at(object)
    }

    fn session(&self, object: ObjNo) -> Option<SessionRow> {
        self.servers.session_at(object)
    }

    fn message(&self, number: MsgNo) -> Option<Message> {
        self.messages.message(number)
    }

    fn next_message(&self, server: ObjNo) -> Option<MsgNo> {
        self.messages.next_untaken(server)
    }

    fn is_full(&self, session: ObjNo, slots: Slots) -> bool {
        self.messages.is_full(session, slots)
    }

    fn accepted(&self) -> u32 {
        self.messages.accepted()
    }

    fn reply_of(&self, thread: ThreadNo) -> i32 {
        self.requests.sync_value(thread)
    }

    fn first_handle(&self, owner: ObjNo) -> Option<(u8, ObjNo)> {
        first_handle_of(&self.handles, owner)
    }

    fn has_one_left(&self, process: ObjNo) -> bool {
        is_one_left(process, self.procs.threads())
    }

    fn buried_by(&self, script: &Script, dfc: usize) -> Option<ThreadNo> {
        let place = burial_place(script, dfc, self.procs.threads())?;
        Some(ObjNo(place as u16))
    }

    fn lock_owner(&self, mutex: ObjNo) -> Option<Owner> {
        self.locks.owner_at(mutex)
    }

    fn lock_count(&self, semaphore: ObjNo) -> u32 {
        self.locks.count_at(semaphore)
    }

    fn best_waiter(&self, object: ObjNo) -> Option<ThreadNo> {
        self.locks.best_at(object)
    }

    fn byte(&self, process: ObjNo, at: u16) -> u8 {
        self.procs.byte_at(process, at)
    }
}

//! The two calls: a piece of a read, and a piece of a write.
ghost use Rattle.std.specs.Prelude.{◌≡◌, ◌<◌, IsTrue};
ghost use Rattle.state_rows.specs.MessageRows.{is_taken};
ghost use Rattle.copy_rules.specs.Ends.{ends_of};
ghost use Rattle.copy_rules.specs.Pieces.{messages_after_write, read_answer, write_answer};
ghost use Rattle.copy_rules.specs.Refusals.{read_refusal, write_refusal};
ghost use Rattle.copy_rules.specs.Sizes.{GoesOn, read_size, write_size};
ghost use Rattle.descopy.specs.Pieces.{after_read, after_write};

use crate::bytes::copy;
use crate::ends::ends_of;
use copy_rules::{
    Job, Piece, caller_place, client_place, piece_answer, piece_size, read_refusal, read_size,
    write_refusal,
};
use messages::Messages;
use procs::Procs;

/// The tables between which bytes are copied, lent for a while.
#[derive(Drop)]
pub struct Descopy<'a> {
    pub procs: &'a mut Procs,
    pub messages: &'a mut Messages,
}

impl<'a> Descopy<'a> {
    /// The next piece of a read, which copies bytes of the client's descriptor into the memory of the caller's process.
    /// The message was taken, and where the piece isn't refused, the earlier ones copied no more bytes than the copy has. It
    /// is never refused for an overflow.
    pub fn read_piece(&mut self, job: Job) -> Piece
        requires taken { IsTrue (is_taken self.old.messages.now job.m) }
        requires arg { job.arg < 4 }
        requires done { let ends = ends_of self.old.procs.now.threads self.old.messages.now job in GoesOn (read_refusal ends job) (read_size ends job) job.done }
        ensures same_procs { self.new.procs.ghost_name ≡ self.old.procs.ghost_name }
        ensures same_messages { self.new.messages.ghost_name ≡ self.old.messages.ghost_name }
        ensures answer { result ≡ read_answer (ends_of self.old.procs.now.threads self.old.messages.now job) job }
        ensures copied { self.new.procs.now ≡ after_read self.old.procs.now (ends_of self.old.procs.now.threads self.old.messages.now job) job }
        ensures messages { self.new.messages.now ≡ self.old.messages.now }
    {
        let ends = ends_of(self.procs, self.messages, &job);
        if let Some(refusal) = read_refusal(&ends, &job) {
            return refusal;
        }
        let size = read_size(&ends, &job);
        let from = client_place(&ends, &job);
        let to = caller_place(&ends, &job);
        copy(self.procs, from, to, piece_size(size, job.done));
        piece_answer(size, job.done)
    }

    /// The next piece of a write, which copies bytes of the caller's process into the client's descriptor. The last
    /// piece sets how many bytes the descriptor has. The message was taken, and where the piece isn't refused, the earlier
    /// ones copied no more bytes than the copy has.
    pub fn write_piece(&mut self, job: Job) -> Piece
        requires taken { IsTrue (is_taken self.old.messages.now job.m) }
        requires arg { job.arg < 4 }
        requires done { let ends = ends_of self.old.procs.now.threads self.old.messages.now job in GoesOn (write_refusal ends job) (write_size job) job.done }
        ensures same_procs { self.new.procs.ghost_name ≡ self.old.procs.ghost_name }
        ensures same_messages { self.new.messages.ghost_name ≡ self.old.messages.ghost_name }
        ensures answer { result ≡ write_answer (ends_of self.old.procs.now.threads self.old.messages.now job) job }
        ensures copied { self.new.procs.now ≡ after_write self.old.procs.now (ends_of self.old.procs.now.threads self.old.messages.now job) job }
        ensures length { self.new.messages.now ≡ messages_after_write self.old.messages.now (ends_of self.old.procs.now.threads self.old.messages.now job) job }
    {
        let ends = ends_of(self.procs, self.messages, &job);
        if let Some(refusal) = write_refusal(&ends, &job) {
            return refusal;
        }
        let from = caller_place(&ends, &job);
        let to = client_place(&ends, &job);
        let count = piece_size(job.len, job.done);
        copy(self.procs, from, to, count);
        if job.done + count == job.len {
            self.messages
                .set_length(job.m, job.arg, job.offset + job.len);
        }
        piece_answer(job.len, job.done)
    }
}

//! Which lines may follow one another.
ghost use Rattle.std.specs.Prelude.{◌≡◌};
ghost use Rattle.script_types.specs.Context.{rank_of, rank_or, may_follow, may_stand, is_in_order, is_process, is_header, is_thread, is_ended};
ghost use Rattle.script_read.specs.Reasons.{is_scheduled};

use script_types::{Context, LineKind};

/// The rank of a line. An instruction has the rank of its thread.
pub fn rank_of(rank: u8, kind: LineKind) -> u8
    ensures { result ≡ rank_of rank kind }
{
    match kind {
        LineKind::Header => 0,
        LineKind::Pool => 1,
        LineKind::Fast => 2,
        LineKind::Queue => 3,
        LineKind::Dfc => 4,
        LineKind::Idfc => 5,
        LineKind::IrqBody => 6,
        LineKind::KernelThread => 7,
        LineKind::Process | LineKind::Thread => 8,
        LineKind::Instr => rank,
        LineKind::Schedule => 9,
        LineKind::Slot => 10,
        LineKind::End => 11,
    }
}

/// Whether a line of this kind may stand behind one of this rank.
fn may_follow(rank: u8, kind: LineKind) -> bool
    ensures { result ≡ may_follow rank kind }
{
    match kind {
        LineKind::Header => false,
        LineKind::Thread => rank == 8,
        LineKind::Instr => rank == 7 || rank == 8,
        LineKind::Schedule => rank <= 8,
        LineKind::Slot => rank == 9 || rank == 10,
        LineKind::End => rank <= 10,
        LineKind::Pool => rank <= 1,
        LineKind::Fast => rank <= 2,
        LineKind::Queue => rank <= 3,
        LineKind::Dfc => rank <= 4,
        LineKind::Idfc => rank <= 5,
        LineKind::IrqBody => rank <= 6,
        LineKind::KernelThread => rank <= 7,
        LineKind::Process => rank <= 8,
    }
}

/// Whether a line of this kind may stand here.
pub fn is_in_order(context: &Context, kind: LineKind) -> bool
    ensures { result ≡ is_in_order context.now kind }
{
    match context.rank {
        None => matches!(kind, LineKind::Header),
        Some(_) if context.awaits_thread => matches!(kind, LineKind::Thread),
        Some(rank) => may_follow(rank, kind),
    }
}

/// The rank of the last line, 0 before the first.
pub fn rank_or(rank: Option<u8>) -> u8
    ensures { result ≡ rank_or rank }
{
    match rank {
        None => 0,
        Some(rank) => rank,
    }
}

/// Whether the lines so far have `schedule`.
pub fn is_scheduled(context: &Context) -> bool
    ensures { result ≡ is_scheduled context.now }
{
    rank_or(context.rank) >= 9
}

/// Whether the last line was `end`.
pub fn is_ended(context: &Context) -> bool
    ensures { result ≡ is_ended context.now }
{
    rank_or(context.rank) == 11
}

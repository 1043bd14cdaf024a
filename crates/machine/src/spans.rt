//! Where the threads of each process stand among the declared ones.
ghost use Rattle.std.specs.Prelude.{◌≡◌, ◌+◌, ◌<◌, ◌≤◌, ◌-◌, ℕ, Some, length, take, drop};
ghost use Rattle.std.specs.List.{slice_index_or};
ghost use Rattle.script_types.specs.Shape.{IsShaped};
ghost use Rattle.machine.specs.Boot.{born_threads};
ghost use Rattle.machine.specs.declared.spans.Span.{Span};

use script_types::Script;
use sym_base::Limits;

/// Places among the declared threads: from the first on, and before the end.
#[derive(Clone, Copy)]
pub struct Span {
    pub first: usize,
    pub end: usize,
}

/// These places, and one more behind them.
fn with_place(span: Span, place: usize) -> Span
    requires few { place < 63 }
    requires behind { span.end ≤ place }
    requires order { span.first ≤ span.end }
    ensures more { result.end ≡ place + 1 }
    ensures order { result.first ≤ place }
    ensures all { (i : ℕ) → span.first ≤ i → i < span.end → result.first ≤ i }
{
    let first = if span.first == span.end {
        place
    } else {
        span.first
    };
    Span {
        first,
        end: place + 1,
    }
}

/// Where the threads of each process stand: those that are declared there make the same of the process as all do.
#[tactic(auto, using(crate::proofs::ThreadSpans::in_span, crate::proofs::ThreadSpans::spans_none, crate::proofs::ThreadSpans::spans_same))]
pub fn spans_of(script: &Script) -> [Span; Limits::PROCESSES]
    requires { IsShaped script.now }
    ensures order { (j : ℕ) → let span = slice_index_or result j (record { first = 0; end = 0 }) in span.first ≤ span.end }
    ensures within { (j : ℕ) → let span = slice_index_or result j (record { first = 0; end = 0 }) in span.end ≤ length script.now.threads }
    ensures same { (j number : ℕ) → let span = slice_index_or result j (record { first = 0; end = 0 }) in
        born_threads (Some j) number span.first (take (span.end - span.first) (drop span.first script.now.threads))
        ≡ born_threads (Some j) number 0 script.now.threads }
{
    let mut spans = [Span { first: 0, end: 0 }; Limits::PROCESSES];
    for (k, thread) in script.threads.as_slice().iter().enumerate() {
        let Some(process) = thread.process else {
            continue;
        };
        let process = process as usize;
        spans[process] = with_place(spans[process], k);
    }
    spans
}

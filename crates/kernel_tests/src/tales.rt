//! What two histories have in common that tell the same, one of a caller alone and one of callers who share the kernel.
use entry_log::{Entry, Part, Step};
use plain_runs::line_of_entry;
use std::alloc::{AllocError, Global};

/// Whether an entry is neither a return nor the one of nobody.
fn is_told(entry: &Entry) -> bool {
    !matches!(entry.step, Step::Of(_, Part::Return) | Step::Wait)
}

/// A line without its first word.
fn without_place(line: &[u8]) -> &[u8] {
    match line.iter().position(|byte| *byte == b' ') {
        Some(at) => &line[at..],
        None => line,
    }
}

/// The lines of a history without places, returns and those of nobody.
pub fn tale_of(alloc: Global, history: &[Entry]) -> Result<Vec<u8>, AllocError> {
    let mut text = Vec::new(alloc);
    for entry in history {
        if is_told(entry) {
            text.extend_from_slice(without_place(line_of_entry(entry).as_slice()))?;
        }
    }
    Ok(text)
}

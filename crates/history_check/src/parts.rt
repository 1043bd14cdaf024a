//! The two parts of an input: a script, and a history behind it.
ghost use Rattle.std.specs.List.{list_all};
ghost use Rattle.std.specs.Prelude.{◌≡◌, ◌++◌, ◌==◌};
ghost use Rattle.history_check.specs.InputParts.{history_part, is_end, script_part};

use script_words::{cut, is_word};

/// Whether each byte of a line is a space.
fn is_blank(line: &[u8]) -> bool
    ensures { result ≡ list_all (λ byte. byte == 32) line.now }
{
    line.iter().all(|byte| *byte == b' ')
}

/// Whether a line has one word, `end`.
fn is_end(line: &[u8]) -> bool
    ensures { result ≡ is_end line.now }
{
    let mut rest = line;
    while let Some((word, behind)) = cut(rest, b' ') {
        if !word.is_empty() {
            return is_word(word, "end") && is_blank(behind);
        }
        rest = behind;
    }
    is_word(rest, "end")
}

/// What stands behind the script's part of an input.
fn history_of(input: &[u8]) -> &[u8]
    ensures script { input.now ≡ script_part input.now ++ result.now }
    ensures history { result.now ≡ history_part input.now }
{
    let mut rest = input;
    while let Some((line, behind)) = cut(rest, b'\n') {
        if is_end(line) {
            return behind;
        }
        rest = behind;
    }
    &rest[rest.len()..]
}

/// The script's part of an input, up to and with the first line that has one word, `end`, or all of it if there is none;
/// and what stands behind.
pub fn parts_of(input: &[u8]) -> (&[u8], &[u8])
    ensures script { result.0.now ≡ script_part input.now }
    ensures history { result.1.now ≡ history_part input.now }
{
    let history = history_of(input);
    (&input[..input.len() - history.len()], history)
}

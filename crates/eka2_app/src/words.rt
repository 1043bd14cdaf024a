//! The words behind the program's name.
ghost use Rattle.std.specs.Fmt.{decimal};
ghost use Rattle.std.specs.Prelude.{◌≡◌, ◌≢◌, ◌<◌, ◌≤◌, ◌^◌, [], ◌∷◌, ◌++◌, ℕ, codes, map, MatchOption, IfSome, None};
ghost use Rattle.std.specs.Str.{bytes_eq};
ghost use Rattle.std.specs.String.{string_bytes};
ghost use Rattle.eka2_app.specs.Readings.{IsReading};

use crate::status::Status;
use itoa::Buffer;
use std::alloc::Global;
use std::env;
use std::io::ErrorKind;

/// A command.
#[derive(Clone, Copy)]
pub enum Command {
    /// Runs a script and prints its history.
    Run,
    /// Runs a script and prints the part of its history that has answers.
    Brief,
    /// Runs a script by so many workers that share the kernel, and prints their history.
    Share { workers: u32 },
    /// Says whether a history of a script is legal.
    Check,
    /// Makes a script from a seed and prints it.
    Make { seed: u64, size: u32 },
    /// Makes a script from a seed, runs it, and prints what the run comes to.
    Load { seed: u64, size: u32 },
}

/// The most rounds that each client of a made script has. The limit is this project's own.
const MOST_ROUNDS: u64 = 500;

/// The most workers. The limit is this project's own.
const MOST_WORKERS: u64 = 8;

/// Whether a word is the text of a number.
fn is_text_of(number: u64, word: &str) -> bool
    ensures { result ≡ bytes_eq (decimal number) word.now }
{
    let mut digits = Buffer::new();
    digits.format(number) == word
}

/// The number of 64 bits that a word spells: digits alone, and no zero before another digit. None where it spells none.
fn number_of(word: &str) -> Option<u64>
    ensures { MatchOption result ((n : ℕ) → n < 2 ^ 64 → word.now ≢ decimal n) (λ number. word.now ≡ decimal number) }
{
    let Ok(number) = word.parse::<u64>() else {
        return None;
    };
    if is_text_of(number, word) {
        Some(number)
    } else {
        None
    }
}

/// The number of rounds that a word spells, 1 to 500. None where it spells none.
fn size_of(word: &str) -> Option<u32>
    ensures none { result ≡ None → (n : ℕ) → 1 ≤ n → n ≤ 500 → word.now ≢ decimal n }
    ensures some { IfSome result (λ size. word.now ≡ decimal size) }
    ensures low { IfSome result (λ size. 1 ≤ size) }
    ensures high { IfSome result (λ size. size ≤ 500) }
{
    let number = number_of(word)?;
    if 1 <= number && number <= MOST_ROUNDS {
        Some(number as u32)
    } else {
        None
    }
}

/// The number of workers that a word spells, 1 to 8. None where it spells none.
fn workers_of(word: &str) -> Option<u32>
    ensures none { result ≡ None → (n : ℕ) → 1 ≤ n → n ≤ 8 → word.now ≢ decimal n }
    ensures some { IfSome result (λ workers. word.now ≡ decimal workers) }
    ensures low { IfSome result (λ workers. 1 ≤ workers) }
    ensures high { IfSome result (λ workers. workers ≤ 8) }
{
    let number = number_of(word)?;
    if 1 <= number && number <= MOST_WORKERS {
        Some(number as u32)
    } else {
        None
    }
}

/// The command of one word.
fn command_of_word(word: &str) -> Option<Command>
    ensures { MatchOption result ((command : Command) → ¬ IsReading (word.now ∷ []) command) (IsReading (word.now ∷ [])) }
{
    match word {
        "run" => Some(Command::Run),
        "brief" => Some(Command::Brief),
        "check" => Some(Command::Check),
        _ => None,
    }
}

/// The command of a word with a seed and a size.
fn command_of_made(word: &str, seed: &str, size: &str) -> Option<Command>
    requires { word.now ≢ codes "share" }
    ensures { MatchOption result
        ((command : Command) → ¬ IsReading (word.now ∷ seed.now ∷ size.now ∷ []) command)
        (IsReading (word.now ∷ seed.now ∷ size.now ∷ [])) }
{
    let seed = number_of(seed)?;
    let size = size_of(size)?;
    match word {
        "make" => Some(Command::Make { seed, size }),
        "load" => Some(Command::Load { seed, size }),
        _ => None,
    }
}

/// The number of workers behind `--workers=`. None where the word is another.
fn workers_behind(word: &str) -> Option<u32>
    ensures none { result ≡ None → (n : ℕ) → 1 ≤ n → n ≤ 8 → word.now ≢ codes "--workers=" ++ decimal n }
    ensures some { IfSome result (λ workers. word.now ≡ codes "--workers=" ++ decimal workers) }
    ensures low { IfSome result (λ workers. 1 ≤ workers) }
    ensures high { IfSome result (λ workers. workers ≤ 8) }
{
    workers_of(word.strip_prefix("--workers=")?)
}

/// The command of two words.
fn command_of_two(word: &str, option: &str) -> Option<Command>
    ensures { MatchOption result
        ((command : Command) → ¬ IsReading (word.now ∷ option.now ∷ []) command)
        (IsReading (word.now ∷ option.now ∷ [])) }
{
    if word != "share" {
        return None;
    }
    let workers = workers_behind(option)?;
    Some(Command::Share { workers })
}

/// The command of a word with an option and a number.
fn command_of_shared(option: &str, number: &str) -> Option<Command>
    ensures { MatchOption result
        ((command : Command) → ¬ IsReading (codes "share" ∷ option.now ∷ number.now ∷ []) command)
        (IsReading (codes "share" ∷ option.now ∷ number.now ∷ [])) }
{
    if option != "--workers" {
        return None;
    }
    let workers = workers_of(number)?;
    Some(Command::Share { workers })
}

/// The command of three words.
fn command_of_three(word: &str, one: &str, other: &str) -> Option<Command>
    ensures { MatchOption result
        ((command : Command) → ¬ IsReading (word.now ∷ one.now ∷ other.now ∷ []) command)
        (IsReading (word.now ∷ one.now ∷ other.now ∷ [])) }
{
    if word == "share" {
        command_of_shared(one, other)
    } else {
        command_of_made(word, one, other)
    }
}

/// The command that the words are. None where they are none.
pub fn command_of(words: &[String]) -> Option<Command>
    ensures { MatchOption result ((command : Command) → ¬ IsReading (map string_bytes words.now) command) (IsReading (map string_bytes words.now)) }
{
    match words.len() {
        1 => command_of_word(words[0].as_str()),
        2 => command_of_two(words[0].as_str(), words[1].as_str()),
        3 => command_of_three(words[0].as_str(), words[1].as_str(), words[2].as_str()),
        _ => None,
    }
}

/// How a run ends whose words can't be had: a word that isn't UTF-8 is no command.
fn status_of(kind: ErrorKind) -> Status
    ensures memory { kind ≡ ErrorKind.OutOfMemory → result ≡ Status.NoMemory }
    ensures other { kind ≢ ErrorKind.OutOfMemory → result ≡ Status.Usage }
{
    match kind {
        ErrorKind::OutOfMemory => Status::NoMemory,
        _ => Status::Usage,
    }
}

/// The words that the program was given, without its own name. Where they can't be had, how the run ends:
/// NoMemory where the error is OutOfMemory or the list can't take a word, and else Usage, as where one isn't UTF-8.
pub fn given_words(rt: &HostRuntime, alloc: Global) -> Result<Vec<String>, Status> {
    let mut given = match env::args(rt) {
        Ok(given) => given,
        Err(error) => return Err(status_of(error.kind())),
    };
    let _program = given.next();
    let mut words = Vec::new(alloc);
    for word in given {
        if words.push(word).is_err() {
            return Err(Status::NoMemory);
        }
    }
    Ok(words)
}

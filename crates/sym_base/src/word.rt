//! The first words of instructions, which scripts and histories share.
ghost use Rattle.std.specs.List.{find};
ghost use Rattle.std.specs.Prelude.{◌≡◌, ◌≤◌, ℕ, List, [], ◌∷◌, length};
ghost use Rattle.std.specs.Str.{bytes_eq};
ghost use Rattle.sym_base.specs.WordText.{word_of, word_text, words_with};

use crate::same::are_same;

/// The first word of an instruction, one variant for each.
#[derive(Clone, Copy)]
pub enum Word {
    Create,
    Open,
    Dup,
    Duplocal,
    Close,
    Lock,
    Unlock,
    Wait,
    Signal,
    Suspend,
    Resume,
    Priority,
    Kill,
    Terminate,
    Panic,
    Exittype,
    Logon,
    Exit,
    Flock,
    Funlock,
    Fswait,
    Fssignal,
    Enter,
    Leave,
    Queue,
    Request,
    Cancel,
    Waitany,
    Waitfor,
    Status,
    Server,
    Connect,
    Send,
    Call,
    Receive,
    Complete,
    Function,
    Read,
    Write,
    Fill,
    Peek,
}

impl Word {
    /// The word as it stands in a script and in a history.
    #[tactic(auto, unfolding(crate::specs::WordText::word_text))]
    pub fn text(self) -> &'static [u8]
        ensures text { result.now ≡ word_text self }
        ensures short { length result.now ≤ 9 }
    {
        match self {
            Word::Create => b"create",
            Word::Open => b"open",
            Word::Dup => b"dup",
            Word::Duplocal => b"duplocal",
            Word::Close => b"close",
            Word::Lock => b"lock",
            Word::Unlock => b"unlock",
            Word::Wait => b"wait",
            Word::Signal => b"signal",
            Word::Suspend => b"suspend",
            Word::Resume => b"resume",
            Word::Priority => b"priority",
            Word::Kill => b"kill",
            Word::Terminate => b"terminate",
            Word::Panic => b"panic",
            Word::Exittype => b"exittype",
            Word::Logon => b"logon",
            Word::Exit => b"exit",
            Word::Flock => b"flock",
            Word::Funlock => b"funlock",
            Word::Fswait => b"fswait",
            Word::Fssignal => b"fssignal",
            Word::Enter => b"enter",
            Word::Leave => b"leave",
            Word::Queue => b"queue",
            Word::Request => b"request",
            Word::Cancel => b"cancel",
            Word::Waitany => b"waitany",
            Word::Waitfor => b"waitfor",
            Word::Status => b"status",
            Word::Server => b"server",
            Word::Connect => b"connect",
            Word::Send => b"send",
            Word::Call => b"call",
            Word::Receive => b"receive",
            Word::Complete => b"complete",
            Word::Function => b"function",
            Word::Read => b"read",
            Word::Write => b"write",
            Word::Fill => b"fill",
            Word::Peek => b"peek",
        }
    }

    /// The word that a text is. Only the words that begin with its first byte are looked at.
    #[tactic(auto, unfolding(crate::specs::WordText::word_of))]
    pub fn of(text: &[u8]) -> Option<Word>
        ensures { result ≡ word_of text.now }
    {
        match text {
            [] => None,
            [first, ..] => word_with(*first, text),
        }
    }
}

/// The first of these words that a text is. The words of a letter stand together, so that a text is compared with those
/// alone, each written out.
macro_rules! first_of {
    ($text:ident) => { None };
    ($text:ident, $word:ident $(, $more:ident)*) => {
        if are_same($text, Word::$word.text()) {
            Some(Word::$word)
        } else {
            first_of!($text $(, $more)*)
        }
    };
}

/// The word with `c` that a text is.
#[tactic(auto, unfolding(crate::specs::WordText::word_text))]
fn with_c(text: &[u8]) -> Option<Word>
    ensures { result ≡ find (λ word. bytes_eq text.now (word_text word)) (words_with 99) }
{
    first_of!(text, Create, Close, Cancel, Connect, Call, Complete)
}

/// The word with `d` that a text is.
#[tactic(auto, unfolding(crate::specs::WordText::word_text))]
fn with_d(text: &[u8]) -> Option<Word>
    ensures { result ≡ find (λ word. bytes_eq text.now (word_text word)) (words_with 100) }
{
    first_of!(text, Dup, Duplocal)
}

/// The word with `e` that a text is.
#[tactic(auto, unfolding(crate::specs::WordText::word_text))]
fn with_e(text: &[u8]) -> Option<Word>
    ensures { result ≡ find (λ word. bytes_eq text.now (word_text word)) (words_with 101) }
{
    first_of!(text, Exittype, Exit, Enter)
}

/// The word with `f` that a text is.
#[tactic(auto, unfolding(crate::specs::WordText::word_text))]
fn with_f(text: &[u8]) -> Option<Word>
    ensures { result ≡ find (λ word. bytes_eq text.now (word_text word)) (words_with 102) }
{
    first_of!(text, Flock, Funlock, Fswait, Fssignal, Function, Fill)
}

/// The word with `l` that a text is.
#[tactic(auto, unfolding(crate::specs::WordText::word_text))]
fn with_l(text: &[u8]) -> Option<Word>
    ensures { result ≡ find (λ word. bytes_eq text.now (word_text word)) (words_with 108) }
{
    first_of!(text, Lock, Logon, Leave)
}

/// The word with `p` that a text is.
#[tactic(auto, unfolding(crate::specs::WordText::word_text))]
fn with_p(text: &[u8]) -> Option<Word>
    ensures { result ≡ find (λ word. bytes_eq text.now (word_text word)) (words_with 112) }
{
    first_of!(text, Priority, Panic, Peek)
}

/// The word with `r` that a text is.
#[tactic(auto, unfolding(crate::specs::WordText::word_text))]
fn with_r(text: &[u8]) -> Option<Word>
    ensures { result ≡ find (λ word. bytes_eq text.now (word_text word)) (words_with 114) }
{
    first_of!(text, Resume, Request, Receive, Read)
}

/// The word with `s` that a text is.
#[tactic(auto, unfolding(crate::specs::WordText::word_text))]
fn with_s(text: &[u8]) -> Option<Word>
    ensures { result ≡ find (λ word. bytes_eq text.now (word_text word)) (words_with 115) }
{
    first_of!(text, Signal, Suspend, Status, Server, Send)
}

/// The word with `w` that a text is.
#[tactic(auto, unfolding(crate::specs::WordText::word_text))]
fn with_w(text: &[u8]) -> Option<Word>
    ensures { result ≡ find (λ word. bytes_eq text.now (word_text word)) (words_with 119) }
{
    first_of!(text, Wait, Waitany, Waitfor, Write)
}

/// This word, if a text is it.
#[inline(always)]
fn only(text: &[u8], word: Word) -> Option<Word>
    ensures { result ≡ find (λ word. bytes_eq text.now (word_text word)) (word ∷ []) }
{
    if are_same(text, word.text()) {
        Some(word)
    } else {
        None
    }
}

/// The word that a text is, whose first byte this is.
fn word_with(first: u8, text: &[u8]) -> Option<Word>
    ensures { (rest : List ℕ) → text.now ≡ first ∷ rest → result ≡ word_of text.now }
{
    match first {
        b'c' => with_c(text),
        b'd' => with_d(text),
        b'e' => with_e(text),
        b'f' => with_f(text),
        b'k' => only(text, Word::Kill),
        b'l' => with_l(text),
        b'o' => only(text, Word::Open),
        b'p' => with_p(text),
        b'q' => only(text, Word::Queue),
        b'r' => with_r(text),
        b's' => with_s(text),
        b't' => only(text, Word::Terminate),
        b'u' => only(text, Word::Unlock),
        b'w' => with_w(text),
        _ => None,
    }
}

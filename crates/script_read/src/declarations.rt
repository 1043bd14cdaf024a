//! The names that the lines of a whole file declare.
ghost use Rattle.std.specs.Prelude.{◌≡◌, ◌==◌, ◌<◌, ℕ, List, [], ◌∷◌, ◌++◌, ◌&&◌, ◌||◌, not, IfOk, IsTrue, OnOk, codes, decimal};
ghost use Rattle.std.specs.BTreeSet.{contains};
ghost use Rattle.std.specs.Ordering.{nat_cmp};
ghost use Rattle.std.specs.Str.{bytes_eq};
ghost use Rattle.script_read.specs.FileNames.{has_name, Knows, AreKnown};
ghost use Rattle.script_read.specs.declared.declarations.Declarations.{Declarations};
ghost use Rattle.script_types.specs.Names.{Declared, file_declares};
ghost use Rattle.script_types.specs.SourceText.{text_lines};

use crate::first_words::{second_word, told_word};
use script_words::{first_line, is_word, read_natural};
use std::alloc::Global;
use std::collections::BTreeSet;
use sym_base::NoMemory;

/// The greatest number that is kept of an `irq` line. An interrupt's own is at most 31.
const MAX_IRQ_NUMBER: u32 = 255;

/// What the lines of a whole file declare, wherever they stand, and also where they are bad. The names
/// are pieces of the file's text.
#[derive(Drop)]
pub struct Declarations<'a> {
    /// The threads, the kernel threads, and the queues, each of which has a thread.
    pub threads: BTreeSet<&'a [u8]>,
    /// The queues of deferred function calls.
    pub queues: BTreeSet<&'a [u8]>,
    /// The deferred function calls.
    pub dfcs: BTreeSet<&'a [u8]>,
    /// The immediate deferred function calls.
    pub idfcs: BTreeSet<&'a [u8]>,
    /// The interrupts that have a line before the first `schedule`.
    pub irqs: BTreeSet<u8>,
    /// Whether a line is `schedule`.
    pub scheduled: bool,
}

/// Whether a set has this name.
pub fn has_name(names: &BTreeSet<&[u8]>, name: &[u8]) -> bool
    ensures { result ≡ has_name names.now name.now }
{
    names.contains(name)
}

/// Adds a name, where it is one of the set's sort.
fn add_name<'a>(
    is_of_sort: bool,
    names: &mut BTreeSet<&'a [u8]>,
    name: &'a [u8],
) -> Result<(), NoMemory>
    ensures { OnOk result ((q : List ℕ) →
        has_name names.new q ≡ (has_name names.old q || (is_of_sort && bytes_eq name.now q))) }
{
    if !is_of_sort {
        return Ok(());
    }
    names.insert(name)?;
    Ok(())
}

/// Adds the interrupt that a word numbers, where it is an interrupt's.
fn add_irq(is_irq: bool, irqs: &mut BTreeSet<u8>, word: &[u8]) -> Result<(), NoMemory>
    ensures { OnOk result ((k : ℕ) → k < 256 →
        contains nat_cmp irqs.new k ≡ (contains nat_cmp irqs.old k || (is_irq && bytes_eq word.now (decimal k)))) }
{
    if !is_irq {
        return Ok(());
    }
    let Some(number) = read_natural(word, MAX_IRQ_NUMBER) else {
        return Ok(());
    };
    irqs.insert(number as u8)?;
    Ok(())
}

/// Whether lines that begin with this word declare a thread.
fn declares_thread(first: &[u8]) -> bool
    ensures { result ≡ (bytes_eq first.now (codes "thread")
        || bytes_eq first.now (codes "kthread") || bytes_eq first.now (codes "dfcq")) }
{
    is_word(first, "thread") || is_word(first, "kthread") || is_word(first, "dfcq")
}

/// Whether a line that begins with this word declares an interrupt.
fn declares_irq(scheduled: bool, first: &[u8]) -> bool
    ensures { result ≡ (not scheduled && bytes_eq first.now (codes "irq")) }
{
    !scheduled && is_word(first, "irq")
}

/// Whether a line is `schedule`, this one, which begins with this word, or one before it.
fn has_schedule(scheduled: bool, first: &[u8]) -> bool
    ensures { result ≡ (scheduled || bytes_eq first.now (codes "schedule")) }
{
    scheduled || is_word(first, "schedule")
}

/// Whether a line that begins with this word declares something, or is `schedule`.
fn declares_something(first: &[u8]) -> bool
    ensures { result ≡ (bytes_eq first.now (codes "thread") || bytes_eq first.now (codes "kthread") || bytes_eq first.now (codes "dfcq")
        || bytes_eq first.now (codes "dfc") || bytes_eq first.now (codes "idfc") || bytes_eq first.now (codes "irq") || bytes_eq first.now (codes "schedule")) }
{
    declares_thread(first)
        || is_word(first, "dfc")
        || is_word(first, "idfc")
        || is_word(first, "irq")
        || is_word(first, "schedule")
}

/// Whether a line that begins with this byte may declare something, or be `schedule`: with the first byte of such a word, or with
/// a space before it.
fn may_declare(first: u8) -> bool
    ensures { result ≡ (first == 32 || first == 100 || first == 105 || first == 107 || first == 115 || first == 116) }
{
    matches!(first, b' ' | b'd' | b'i' | b'k' | b's' | b't')
}

/// Whether the first byte of a line shows that it declares nothing.
fn declares_nothing(line: &[u8]) -> bool
    ensures { IsTrue result → (d : Declarations) (file : List Declared) → Knows d file → Knows d (file ++ file_declares (line.now ∷ [])) }
{
    match line {
        [] => false,
        [first, ..] => !may_declare(*first),
    }
}

impl<'a> Declarations<'a> {
    /// What no line declares: nothing.
    fn new(alloc: Global) -> Self
        ensures { Knows result [] }
    {
        Declarations {
            threads: BTreeSet::new(alloc),
            queues: BTreeSet::new(alloc),
            dfcs: BTreeSet::new(alloc),
            idfcs: BTreeSet::new(alloc),
            irqs: BTreeSet::new(alloc),
            scheduled: false,
        }
    }

    /// Adds what a line of these first two words declares.
    fn add(&mut self, first: &[u8], second: &'a [u8]) -> Result<(), NoMemory>
        ensures { OnOk result ((file : List Declared) →
            Knows self.old file → Knows self.new (file ++ (first.now, second.now) ∷ [])) }
    {
        add_name(declares_thread(first), &mut self.threads, second)?;
        add_name(is_word(first, "dfcq"), &mut self.queues, second)?;
        add_name(is_word(first, "dfc"), &mut self.dfcs, second)?;
        add_name(is_word(first, "idfc"), &mut self.idfcs, second)?;
        add_irq(declares_irq(self.scheduled, first), &mut self.irqs, second)?;
        self.scheduled = has_schedule(self.scheduled, first);
        Ok(())
    }

    /// Adds what a line declares. Its second word is looked for where the first declares something.
    #[tactic(auto, using(crate::proofs::FileLines::added_none, crate::proofs::FileLines::added_two))]
    fn add_line(&mut self, line: &'a [u8]) -> Result<(), NoMemory>
        ensures { OnOk result ((file : List Declared) →
            Knows self.old file → Knows self.new (file ++ file_declares (line.now ∷ []))) }
    {
        if declares_nothing(line) {
            return Ok(());
        }
        let Some((first, rest)) = told_word(line) else {
            return Ok(());
        };
        if !declares_something(first) {
            return Ok(());
        }
        self.add(first, second_word(rest))
    }
}

/// What the lines of a text declare.
#[tactic(auto, using(crate::proofs::FileLines::front_start, crate::proofs::FileLines::front_more, crate::proofs::FileLines::front_end))]
pub fn declarations_of(alloc: Global, text: &[u8]) -> Result<Declarations<'_>, NoMemory>
    ensures { IfOk result (λ d. Knows d (file_declares (text_lines text.now))) }
{
    let mut declarations = Declarations::new(alloc);
    let mut rest = text;
    while !rest.is_empty() {
        let (line, after) = first_line(rest);
        declarations.add_line(line)?;
        rest = after;
    }
    Ok(declarations)
}

/// The text of a whole file, and what its lines declare. They are read where a line first names something.
#[derive(Drop)]
pub struct FileNames<'a> {
    pub text: &'a [u8],
    pub declarations: Declarations<'a>,
    pub are_read: bool,
}

impl<'a> FileNames<'a> {
    /// A text of which nothing is read yet.
    pub fn new(alloc: Global, text: &'a [u8]) -> Self
        ensures text { result.text.now ≡ text.now }
        ensures known { AreKnown result }
    {
        FileNames {
            text,
            declarations: Declarations::new(alloc),
            are_read: false,
        }
    }

    /// Has it known what the lines declare, where they are asked for.
    pub fn read_where(&mut self, alloc: Global, are_asked: bool) -> Result<(), NoMemory>
        requires { AreKnown self.old }
        ensures asked { OnOk result (IsTrue are_asked → Knows self.new.declarations (file_declares (text_lines self.old.text.now))) }
        ensures known { AreKnown self.new }
        ensures read { OnOk result (self.new.are_read ≡ (are_asked || self.old.are_read)) }
        ensures text { self.new.text.now ≡ self.old.text.now }
    {
        if !are_asked || self.are_read {
            return Ok(());
        }
        self.declarations = declarations_of(alloc, self.text)?;
        self.are_read = true;
        Ok(())
    }
}

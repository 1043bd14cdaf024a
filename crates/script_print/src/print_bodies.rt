//! The lines of queues, of deferred function calls and of interrupts.
ghost use Rattle.std.specs.List.{flat_map};
ghost use Rattle.std.specs.Prelude.{◌≡◌, ◌==◌, if◌then◌else◌, List, [], ◌∷◌, ◌++◌, map, codes, OnOk};
ghost use Rattle.script_print.specs.CanonicalText.{source_text, source_texts, queue_line, dfc_line, idfc_line, irq_line};
ghost use Rattle.script_print.specs.PrintedWord.{separator};
ghost use Rattle.script_types.specs.SourceWords.{op_words, body_words};

use crate::word::{Word, put_end, put_front, put_line, put_words};
use script_types::{DfcDecl, IdfcDecl, IrqBody, Op, QueueDecl};
use script_words::Keyword;
use sym_base::{NoMemory, Word as InstrWord};

/// Adds an operation.
#[tactic(auto, unfolding(sym_base::specs::WordText::word_text))]
fn put_op(out: &mut Vec<u8>, op: Op) -> Result<(), NoMemory>
    ensures { OnOk result (out.new.items ≡ out.old.items ++ flat_map (λ word. 32 ∷ word) (op_words op)) }
{
    match op {
        Op::Idfc(name) => put_words(out, &[Word::Key(Keyword::Idfc), Word::Named(name)]),
        Op::Dfc(name) => put_words(out, &[Word::Key(Keyword::Dfc), Word::Named(name)]),
        Op::Fssignal(name) => put_words(
            out,
            &[
                Word::Key(Keyword::Instr(InstrWord::Fssignal)),
                Word::Named(name),
            ],
        ),
        Op::Device(x, code) => put_words(
            out,
            &[Word::Device, Word::DeviceNumber(x), Word::Code(code)],
        ),
        Op::Queue(name) => put_words(
            out,
            &[
                Word::Key(Keyword::Instr(InstrWord::Queue)),
                Word::Named(name),
            ],
        ),
    }
}

/// Adds what stands before the operation of this number.
fn put_separator(out: &mut Vec<u8>, number: usize) -> Result<(), NoMemory>
    ensures { OnOk result (out.new.items ≡ out.old.items ++ flat_map (λ word. 32 ∷ word) (separator number)) }
{
    if number == 0 {
        return Ok(());
    }
    put_words(out, &[Word::Next])
}

/// Adds a body.
fn put_body(out: &mut Vec<u8>, ops: &[Op]) -> Result<(), NoMemory>
    ensures { OnOk result (out.new.items ≡ out.old.items ++ flat_map (λ word. 32 ∷ word) (body_words ops.now)) }
{
    for (number, op) in ops.iter().enumerate() {
        put_separator(out, number)?;
        put_op(out, *op)?;
    }
    Ok(())
}

/// Adds the line of a deferred function call.
fn put_dfc(out: &mut Vec<u8>, dfc: &DfcDecl) -> Result<(), NoMemory>
    ensures { OnOk result (out.new.items ≡ out.old.items ++ source_text (dfc_line dfc.now)) }
{
    put_front(
        out,
        Keyword::Dfc,
        &[
            Word::Named(dfc.name),
            Word::Named(dfc.queue),
            Word::Number(u64::from(dfc.priority)),
        ],
    )?;
    put_body(out, dfc.body.as_slice())?;
    put_end(out)
}

/// Adds the line of an immediate deferred function call.
fn put_idfc(out: &mut Vec<u8>, idfc: &IdfcDecl) -> Result<(), NoMemory>
    ensures { OnOk result (out.new.items ≡ out.old.items ++ source_text (idfc_line idfc.now)) }
{
    put_front(out, Keyword::Idfc, &[Word::Named(idfc.name)])?;
    put_body(out, idfc.body.as_slice())?;
    put_end(out)
}

/// Adds the line of the body of an interrupt.
fn put_irq(out: &mut Vec<u8>, irq: &IrqBody) -> Result<(), NoMemory>
    ensures { OnOk result (out.new.items ≡ out.old.items ++ source_text (irq_line irq.now)) }
{
    put_front(out, Keyword::Irq, &[Word::Number(u64::from(irq.number))])?;
    put_body(out, irq.body.as_slice())?;
    put_end(out)
}

/// Adds the line of each queue.
pub fn put_queues(out: &mut Vec<u8>, queues: &[QueueDecl]) -> Result<(), NoMemory>
    ensures { OnOk result (out.new.items ≡ out.old.items ++ source_texts (map queue_line queues.now)) }
{
    for queue in queues {
        put_line(
            out,
            Keyword::Dfcq,
            &[
                Word::Named(queue.name),
                Word::Number(u64::from(queue.priority)),
            ],
        )?;
    }
    Ok(())
}

/// Adds the line of each deferred function call.
pub fn put_dfcs(out: &mut Vec<u8>, dfcs: &[DfcDecl]) -> Result<(), NoMemory>
    ensures { OnOk result (out.new.items ≡ out.old.items ++ source_texts (map dfc_line dfcs.now)) }
{
    for dfc in dfcs {
        put_dfc(out, dfc)?;
    }
    Ok(())
}

/// Adds the line of each immediate deferred function call.
pub fn put_idfcs(out: &mut Vec<u8>, idfcs: &[IdfcDecl]) -> Result<(), NoMemory>
    ensures { OnOk result (out.new.items ≡ out.old.items ++ source_texts (map idfc_line idfcs.now)) }
{
    for idfc in idfcs {
        put_idfc(out, idfc)?;
    }
    Ok(())
}

/// Adds the line of each interrupt that has a body.
pub fn put_irqs(out: &mut Vec<u8>, irqs: &[IrqBody]) -> Result<(), NoMemory>
    ensures { OnOk result (out.new.items ≡ out.old.items ++ source_texts (map irq_line irqs.now)) }
{
    for irq in irqs {
        put_irq(out, irq)?;
    }
    Ok(())
}

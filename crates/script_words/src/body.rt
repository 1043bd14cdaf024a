//! The operations of a body, once their forms and ranges are tested.
ghost use Rattle.std.specs.List.{AllByRecursion};
ghost use Rattle.std.specs.Prelude.{◌≡◌, map, IfOk};
ghost use Rattle.script_words.specs.LineAt.{op_of};
ghost use Rattle.script_words.specs.LineSigns.{operations};
ghost use Rattle.script_words.specs.Operands.{IsOperation};
ghost use Rattle.script_words.specs.Pieces.{pieces};

use crate::field::is_word;
use crate::line_form::ends_operation;
use crate::operand::{code_at, item_at, name_at};
use crate::source::word_at;
use script_types::{Op, Ops};
use std::alloc::Global;
use sym_base::{Items, NoMemory};

/// The operation that words are.
fn operation(words: &[&[u8]]) -> Op
    requires { IsOperation (pieces words.now) }
    ensures { result ≡ op_of (pieces words.now) }
{
    let first = word_at(words, 0);
    if is_word(first, "device") {
        return Op::Device(item_at(words, 1), code_at(words, 2));
    }
    let name = name_at(words, 1);
    if is_word(first, "idfc") {
        Op::Idfc(name)
    } else if is_word(first, "dfc") {
        Op::Dfc(name)
    } else if is_word(first, "fssignal") {
        Op::Fssignal(name)
    } else {
        Op::Queue(name)
    }
}

/// The body that words are.
pub fn body(alloc: Global, words: &[&[u8]]) -> Result<Ops, NoMemory>
    requires { AllByRecursion IsOperation (operations (pieces words.now)) }
    ensures { IfOk result (λ ops. ops ≡ map op_of (operations (pieces words.now))) }
{
    let mut ops = Items::new(Vec::new(alloc));
    for part in words.split(|word| ends_operation(word)) {
        ops.push(operation(part))?;
    }
    Ok(ops)
}

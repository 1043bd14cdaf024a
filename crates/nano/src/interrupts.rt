//! The interrupts that a script declares, and what each adds to the immediate queue.
ghost use Rattle.std.specs.Prelude.{◌≡◌, All, filter_map, IfOk};
ghost use Rattle.script_types.specs.Shape.{IsShaped};
ghost use Rattle.state_rows.specs.Deferred.{IsKnown};
ghost use Rattle.state_rows.specs.DeferredChanges.{after_item, after_items};
ghost use Rattle.nano.specs.Interrupts.{item_of, interrupt_of, interrupts_of};

use deferred::Deferred;
use script_types::{IrqBody, Op, Script};
use state_rows::{Item, dfc_named, idfc_named};
use std::alloc::Global;
use sym_base::{Items, NoMemory};

/// The body of an interrupt: its number, and the items that it adds to the immediate queue, in order (Symbian OS Internals, the
/// chapter on interrupts).
#[derive(Drop)]
pub struct InterruptBody {
    pub number: u8,
    pub items: Items<Item>,
}

/// The item that an operation of an interrupt's body adds.
fn item_of(script: &Script, op: &Op) -> Option<Item>
    requires { IsShaped script.now }
    ensures { result ≡ item_of script.now op.now }
{
    match op {
        Op::Idfc(name) => Some(Item::Idfc(idfc_named(script, name)?)),
        Op::Dfc(name) => Some(Item::Move(dfc_named(script, name)?)),
        _ => None,
    }
}

/// The items that the body of an interrupt adds, in order.
fn items_of(alloc: Global, script: &Script, body: &[Op]) -> Result<Items<Item>, NoMemory>
    requires { IsShaped script.now }
    ensures { IfOk result (λ items. items ≡ filter_map (item_of script.now) body.now) }
{
    let mut items = Vec::new(alloc);
    for op in body {
        if let Some(item) = item_of(script, op) {
            items.push(item)?;
        }
    }
    Ok(Items::new(items))
}

/// The interrupts that a script declares.
pub fn interrupts_of(alloc: Global, script: &Script) -> Result<Items<InterruptBody>, NoMemory>
    requires { IsShaped script.now }
    ensures { IfOk result (λ interrupts. interrupts ≡ interrupts_of script.now) }
{
    let mut interrupts = Vec::new(alloc);
    for irq in script.irqs.as_slice() {
        interrupts.push(InterruptBody {
            number: irq.number,
            items: items_of(alloc, script, irq.body.as_slice())?,
        })?;
    }
    Ok(Items::new(interrupts))
}

/// An interrupt comes: its items join the immediate queue, in order. One that is queued already stays where it is.
pub fn interrupt(deferred: &mut Deferred, items: &[Item])
    requires { All (IsKnown deferred.old) items.now }
    ensures { deferred.new ≡ after_items deferred.old items.now }
{
    for item in items {
        add_item(deferred, *item);
    }
}

/// An item joins the immediate queue, unless it is queued already.
fn add_item(deferred: &mut Deferred, item: Item)
    requires { IsKnown deferred.old item }
    ensures { deferred.new ≡ after_item deferred.old item }
{
    match item {
        Item::Idfc(idfc) => deferred.add_idfc(idfc),
        Item::Move(dfc) => deferred.add_from_irq(dfc),
    };
}

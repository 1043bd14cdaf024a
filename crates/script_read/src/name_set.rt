//! Names in order, so that one is found by halving.
ghost use Rattle.std.specs.Prelude.{◌≡◌, not, [], IfOk, IsTrue};
ghost use Rattle.script_read.specs.NameNumbers.{name_number, lists_name, AddsName, IsNameText};

use std::alloc::Global;
use std::marker::Model;
use sym_base::{MAX_NAME, Name, NoMemory};

/// Names, each as a number of 128 bits, in order. A contract sees the list of the numbers.
#[derive(Drop)]
pub struct NameSet {
    numbers: Vec<u128>,
}

impl Model for NameSet {
    ghost use Rattle.std.specs.Prelude.{ℕ, List};
    ghost use Rattle.std.specs.List.Sorted.{IsNonDecreasing};

    ghost Value = { List ℕ };

    ghost view = { λ a. a.numbers.items };

    ghost invariant = { λ a. IsNonDecreasing a.numbers.items };
}

/// The number that the bytes of a name and the zeros behind them write, the first byte the lowest.
fn number_of(name: &Name) -> u128
    ensures number { result ≡ name_number name.now }
    ensures text { IsNameText name.now }
{
    let text = name.as_slice();
    let mut bytes = [0; MAX_NAME];
    bytes[..text.len()].copy_from_slice(text);
    u128::from_le_bytes(bytes)
}

impl NameSet {
    /// No name.
    pub fn new(alloc: Global) -> Self
        ensures { result ≡ [] }
    {
        NameSet {
            numbers: Vec::new(alloc),
        }
    }

    /// Adds a name. Answers whether it is new.
    pub fn insert(&mut self, name: &Name) -> Result<bool, NoMemory>
        ensures new { IfOk result (λ is_new. is_new ≡ not (lists_name self.old name.now)) }
        ensures more { IfOk result (λ is_new. IsTrue is_new → AddsName self.old self.new name.now) }
        ensures text { IsNameText name.now }
    {
        let number = number_of(name);
        match self.numbers.as_slice().binary_search(&number) {
            Ok(_) => Ok(false),
            Err(place) => {
                self.numbers.insert(place, number)?;
                Ok(true)
            }
        }
    }
}

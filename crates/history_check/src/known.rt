//! What is known of each object that is left. These calls only state facts, and change nothing.
ghost use Rattle.std.specs.Prelude.{IfSome, IsTrue};
ghost use Rattle.std.specs.List.{list_all};
ghost use Rattle.entry_log.specs.FinalLine.{final_line};
ghost use Rattle.sym_base.specs.NameText.{name_byte};
ghost use Rattle.history_check.specs.FirstLines.{IsLine};

use entry_log::FinalRow;
use sym_base::{Exit, Name};

/// A name is name text.
fn known_name(name: Name)
    ensures { IsTrue (list_all name_byte name) }
{
    let _bytes = name.as_slice();
}

/// The category of an exit is name text.
fn known_exit(exit: Option<Exit>)
    ensures { IfSome exit (λ exit. IsTrue (list_all name_byte exit.category)) }
{
    if let Some(exit) = exit {
        known_name(exit.category);
    }
}

/// The text of an object that is left is one line.
pub fn known_row(row: &FinalRow)
    ensures { IsLine (final_line row.now) }
{
    known_name(row.name);
    known_exit(row.exit);
}

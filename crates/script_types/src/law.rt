//! The laws of scripts, for those who run them. They hold of every well-formed script.
ghost use Rattle.script_types.specs.Resolves.{AreNumbersInRange, DoNamesResolve};
ghost use Rattle.script_types.specs.Shape.{IsShaped};
ghost use Rattle.script_types.specs.Source.{IsWellFormed};

use crate::Script;

/// Each queue, deferred function call, interrupt and thread that a body, an instruction or a slot names is
/// declared, and each fast mutex is one of the script's. This call only states it, and changes nothing.
pub fn names_resolve(script: &Script)
    requires { IsWellFormed script.now }
    ensures { DoNamesResolve script.now }
{}

/// Each number is in its range. This call only states it, and changes nothing.
pub fn numbers_are_in_range(script: &Script)
    requires { IsWellFormed script.now }
    ensures { AreNumbersInRange script.now }
{}

/// No limit is passed, and each register that is named is there. This call only states it, and changes nothing.
pub fn is_shaped(script: &Script)
    requires { IsWellFormed script.now }
    ensures { IsShaped script.now }
{}

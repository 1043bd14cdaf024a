//! What follows for a script that is accepted.
ghost use Rattle.script_grammar.specs.Accepted.{IsValid};
ghost use Rattle.script_types.specs.Source.{IsWellFormed};

use script_types::Script;

/// A valid script is well formed. This call only states it, and changes nothing.
pub fn is_well_formed(script: &Script)
    requires { IsValid script.now }
    ensures { IsWellFormed script.now }
{}

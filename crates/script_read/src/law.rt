//! The law of accepted and of refused texts.
ghost use Rattle.std.specs.Prelude.{◌≡◌, ◌⊎◌, ℕ};
ghost use Rattle.script_read.specs.FirstBad.{IsFirstBad};
ghost use Rattle.script_read.specs.declared.reason.Reason.{Reason};
ghost use Rattle.script_grammar.specs.Accepted.{IsAccepted};
ghost use Rattle.script_types.specs.declared.script.Script.{Script};

/// Any bytes are accepted as a script, or have a first bad line with a reason, and never both. The script is
/// the only one, and so are the line and the reason. This call only states it, and changes nothing.
pub fn accepted_or_bad(bytes: &[u8])
    ensures some { ((script : Script) × IsAccepted bytes.now script)
        ⊎ ((line : ℕ) × (why : Reason) × IsFirstBad bytes.now line why) }
    ensures not_both { (script : Script) → (line : ℕ) → (why : Reason)
        → IsAccepted bytes.now script → IsFirstBad bytes.now line why → ⊥ }
    ensures one_script { (one : Script) → (other : Script)
        → IsAccepted bytes.now one → IsAccepted bytes.now other → one ≡ other }
    ensures one_line { (line : ℕ) → (other : ℕ) → (why : Reason) → (because : Reason)
        → IsFirstBad bytes.now line why → IsFirstBad bytes.now other because → (line ≡ other) × (why ≡ because) }
{}

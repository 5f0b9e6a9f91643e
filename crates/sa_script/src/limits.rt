//! The limits that every script keeps, as a law.

ghost use Rattle.std.specs.Prelude.{ℕ, List};
ghost use Rattle.sa_script.specs.declared.script.Script.{Script as Read};
ghost use Rattle.sa_script.specs.Limits.{IsWithinLimits};
ghost use Rattle.sa_script.specs.Script.{IsScript};

/// Every script keeps its limits: at most 16 sessions of at most 256 statements each, a QUANTUM of
/// 1 to 64, TURNS of 1 to 1,000,000,000, and at most 65,536 numbers of SCHEDULE, each that of one
/// of its sessions.
pub fn scripts_keep_limits()
    ensures { (text : List ℕ) (script : Read) → IsScript text script → IsWithinLimits script }
{}

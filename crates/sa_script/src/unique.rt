//! What holds of every answer. A law is a function that does nothing: its contract states the law,
//! which its proof shows once and for all.

ghost use Rattle.std.specs.Prelude.{◌≡◌, ◌≢◌, ℕ, List, Result, Err};
ghost use Rattle.sa_script.specs.declared.fault.ScriptFault.{ScriptFault as Fault};
ghost use Rattle.sa_script.specs.declared.fault.ScriptFault.TheVariants.{OutOfMemory};
ghost use Rattle.sa_script.specs.declared.script.Script.{Script as Read};
ghost use Rattle.sa_script.specs.Script.{IsScriptOf};

use sa_parser::tokens_have_one_answer;

/// A text has one answer, unless memory runs out: it is one script, or it has one first fault.
pub fn text_has_one_answer()
    ensures { (text : List ℕ) (answer other : Result Read Fault) →
        IsScriptOf text answer → IsScriptOf text other →
        answer ≢ Err OutOfMemory → other ≢ Err OutOfMemory → answer ≡ other }
{
    tokens_have_one_answer();
}

//! What is true of every table of a board. The law is a function that does nothing: its contract
//! states the law, which its proof shows once and for all.

ghost use Rattle.std.specs.Prelude.{List};
ghost use Rattle.sa_desk.specs.Contents.{Contents};
ghost use Rattle.sa_board.specs.Rule.{Table, IsKept};
ghost use Rattle.sa_board.specs.Sentences.{Sentences};

/// A table that keeps the rule of its board meets each of its sentences: who holds a desk, what the
/// desk's one history is, and what each session knows of it.
pub fn rule_says()
    ensures { (founded : List Contents) (table : Table) →
        IsKept founded table → Sentences founded table }
{}

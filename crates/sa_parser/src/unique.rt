//! What holds of every answer. A law is a function that does nothing: its contract states the law,
//! which its proof shows once and for all.

ghost use Rattle.std.specs.Prelude.{◌≡◌, ◌≢◌, List, Result, Err};
ghost use Rattle.sa_lexer.specs.declared.token.Token.{Token};
ghost use Rattle.sa_ast.specs.declared.directive.Directive.{Directive};
ghost use Rattle.sa_ast.specs.declared.statement.Statement.{Statement};
ghost use Rattle.sa_parser.specs.declared.answer.ParseFault.{ParseFault};
ghost use Rattle.sa_parser.specs.declared.answer.ParseFault.TheVariants.{OutOfMemory};
ghost use Rattle.sa_parser.specs.Parse.{IsStatement, IsSetup, IsDirective, IsAnswer, HasAnswer};

/// Tokens are one statement at most, and one directive at most.
pub fn tokens_have_one_tree()
    ensures statement { (tokens : List Token) (tree other : Statement) →
        IsStatement tokens tree → IsStatement tokens other → tree ≡ other }
    ensures setup { (tokens : List Token) (tree other : Statement) →
        IsSetup tokens tree → IsSetup tokens other → tree ≡ other }
    ensures directive { (tokens : List Token) (tree other : Directive) →
        IsDirective tokens tree → IsDirective tokens other → tree ≡ other }
{}

/// Tokens have one answer, unless memory runs out: one tree, or one fault of one kind at one place.
pub fn tokens_have_one_answer()
    ensures statement { (tokens : List Token) (answer other : Result Statement ParseFault) →
        IsAnswer IsStatement tokens answer → IsAnswer IsStatement tokens other →
        answer ≢ Err OutOfMemory → other ≢ Err OutOfMemory → answer ≡ other }
    ensures setup { (tokens : List Token) (answer other : Result Statement ParseFault) →
        IsAnswer IsSetup tokens answer → IsAnswer IsSetup tokens other →
        answer ≢ Err OutOfMemory → other ≢ Err OutOfMemory → answer ≡ other }
    ensures directive { (tokens : List Token) (answer other : Result Directive ParseFault) →
        IsAnswer IsDirective tokens answer → IsAnswer IsDirective tokens other →
        answer ≢ Err OutOfMemory → other ≢ Err OutOfMemory → answer ≡ other }
{}

/// Tokens have an answer other than want of memory.
pub fn tokens_have_an_answer()
    ensures statement { (tokens : List Token) → HasAnswer IsStatement tokens }
    ensures setup { (tokens : List Token) → HasAnswer IsSetup tokens }
    ensures directive { (tokens : List Token) → HasAnswer IsDirective tokens }
{}

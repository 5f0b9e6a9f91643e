ghost use Rattle.std.specs.Prelude.{◌≡◌};
ghost use Rattle.sa_transcript.specs.FaultLine.{kind_name};
ghost use Rattle.sa_transcript.specs.Names.{lex_name, resolve_name, ask_name, kill_name, why_name};

use sa_ast::{AskKind, KillKind};
use sa_desk::RefusedWhy;
use sa_lexer::LexKind;
use sa_query::ResolveKind;
use sa_script::ScriptKind;

/// How a lexical fault is called.
pub fn lex_name(kind: LexKind) -> &'static str
    ensures { result.now ≡ lex_name kind }
{
    match kind {
        LexKind::BadByte => "BadByte",
        LexKind::OpenText => "OpenText",
        LexKind::OpenComment => "OpenComment",
        LexKind::NumberTooLong => "NumberTooLong",
        LexKind::TextTooLong => "TextTooLong",
    }
}

/// How a fault of resolution is called.
pub fn resolve_name(kind: ResolveKind) -> &'static str
    ensures { result.now ≡ resolve_name kind }
{
    match kind {
        ResolveKind::UnknownTable => "UnknownTable",
        ResolveKind::UnknownColumn => "UnknownColumn",
        ResolveKind::Ambiguous => "Ambiguous",
        ResolveKind::DuplicateAlias => "DuplicateAlias",
        ResolveKind::TypeMismatch => "TypeMismatch",
        ResolveKind::ExprRange => "ExprRange",
        ResolveKind::GroupRule => "GroupRule",
        ResolveKind::TooManyTables => "TooManyTables",
        ResolveKind::TooManyItems => "TooManyItems",
        ResolveKind::TooManyConstants => "TooManyConstants",
    }
}

/// How a kind of request is called.
pub fn ask_name(kind: AskKind) -> &'static str
    ensures { result.now ≡ ask_name kind }
{
    match kind {
        AskKind::Explain => "explain",
        AskKind::Analyze => "analyze",
    }
}

/// How a kind of KILL is called.
pub fn kill_name(kind: KillKind) -> &'static str
    ensures { result.now ≡ kill_name kind }
{
    match kind {
        KillKind::Query => "query",
        KillKind::Connection => "connection",
    }
}

/// How the reason of a refusal at a desk is called.
pub fn why_name(why: RefusedWhy) -> &'static str
    ensures { result.now ≡ why_name why }
{
    match why {
        RefusedWhy::NotExplainable => "NotExplainable",
        RefusedWhy::NoSuchThread => "NoSuchThread",
    }
}

/// How a kind of fault of a script is called.
pub fn kind_name(kind: ScriptKind) -> &'static str
    ensures { result.now ≡ kind_name kind }
{
    match kind {
        ScriptKind::TooLong => "TooLong",
        ScriptKind::NotUtf8 => "NotUtf8",
        ScriptKind::OpenText => "OpenText",
        ScriptKind::OpenComment => "OpenComment",
        ScriptKind::BadByte => "BadByte",
        ScriptKind::NumberTooLong => "NumberTooLong",
        ScriptKind::TextTooLong => "TextTooLong",
        ScriptKind::Syntax => "Syntax",
        ScriptKind::NotSupported => "NotSupported",
        ScriptKind::TooDeep => "TooDeep",
        ScriptKind::BadNumber => "BadNumber",
        ScriptKind::SessionOrder => "SessionOrder",
        ScriptKind::TooManySessions => "TooManySessions",
        ScriptKind::TooManyStatements => "TooManyStatements",
        ScriptKind::StatementTooLong => "StatementTooLong",
        ScriptKind::UnknownSession => "UnknownSession",
        ScriptKind::ScheduleTooLong => "ScheduleTooLong",
        ScriptKind::AfterSchedule => "AfterSchedule",
        ScriptKind::BlockMissing => "BlockMissing",
        ScriptKind::UnknownTable => "UnknownTable",
        ScriptKind::UnknownColumn => "UnknownColumn",
        ScriptKind::DuplicateName => "DuplicateName",
        ScriptKind::TooManyTables => "TooManyTables",
        ScriptKind::TooManyColumns => "TooManyColumns",
        ScriptKind::TooManyKeys => "TooManyKeys",
        ScriptKind::TooManyParts => "TooManyParts",
        ScriptKind::SecondPrimary => "SecondPrimary",
        ScriptKind::RowFull => "RowFull",
        ScriptKind::Arity => "Arity",
        ScriptKind::NotNumber => "NotNumber",
        ScriptKind::NullNotAllowed => "NullNotAllowed",
        ScriptKind::TypeMismatch => "TypeMismatch",
        ScriptKind::OutOfRange => "OutOfRange",
        ScriptKind::DuplicateKey => "DuplicateKey",
    }
}

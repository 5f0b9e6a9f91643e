//! The directives of a script.

use sa_ast::{Directive, NumberTree, NumberTrees};
use sa_lexer::tokens;
use sa_parser::parse_directive;
use sa_parser_fixtures::{fault_line, marked, repeated};
use std::alloc::Global;
use std::process::Abort;
use std::test::Fail;

/// A number in a line, with its place.
fn number_line(alloc: Global, tree: &NumberTree) -> Result<String, Fail> {
    let (number, place) = (tree.number, tree.place);
    Ok(format!(in alloc; "{number} at {place}")?)
}

/// Numbers in a line.
fn numbers_line(alloc: Global, trees: &NumberTrees) -> Result<String, Fail> {
    let mut line = String::from_str(alloc, "schedule")?;
    for tree in trees.as_slice() {
        line.push_str(", ")?;
        line.push_str(number_line(alloc, tree)?.as_str())?;
    }
    Ok(line)
}

/// A directive in a line, after its first word.
fn told_line(alloc: Global, word: &str, number: &NumberTree) -> Result<String, Fail> {
    let number = number_line(alloc, number)?;
    Ok(format!(in alloc; "{word} {number}")?)
}

/// What a directive is read as: itself in a line, or its fault.
fn directive_line(alloc: Global, text: &str) -> Result<String, Fail> {
    match parse_directive(alloc, &tokens(alloc, text)?) {
        Ok(Directive::Quantum(number)) => told_line(alloc, "quantum", &number),
        Ok(Directive::Turns(number)) => told_line(alloc, "turns", &number),
        Ok(Directive::Session(number)) => told_line(alloc, "session", &number),
        Ok(Directive::Load { table, bytes }) => told_line(alloc, table.name.as_str(), &bytes),
        Ok(Directive::Schedule(numbers)) => numbers_line(alloc, &numbers),
        Err(fault) => fault_line(alloc, fault),
    }
}

/// The text is read as this.
fn is_directive<R: Abort + Alloc<A = Global>>(
    rt: &R,
    name: &str,
    text: &str,
    wanted: &str,
) -> Result<(), Fail> {
    let found = directive_line(rt.alloc(), text)?;
    assert_eq!(rt; found.as_str(), wanted, "{name}: {text:?}");
    Ok(())
}

/// The fault of this kind stands at the mark.
fn is_faulty<R: Abort + Alloc<A = Global>>(
    rt: &R,
    name: &str,
    text: &str,
    kind: &str,
) -> Result<(), Fail> {
    let (text, place) = marked(rt.alloc(), text)?;
    let wanted = format!(in rt.alloc(); "{kind} at {place}")?;
    is_directive(rt, name, text.as_str(), wanted.as_str())
}

#[test]
fn reads_directives(rt: HostRuntime) -> Result<(), Fail> {
    let rows = [
        ("a quantum", "QUANTUM 64", "quantum 64 at 8"),
        ("turns", "TURNS 1", "turns 1 at 6"),
        ("rows of a table", "LOAD DATA t BYTES 12", "t 12 at 18"),
        ("a session", "SESSION 1", "session 1 at 8"),
        ("a schedule of one turn", "SCHEDULE 2", "schedule, 2 at 9"),
        (
            "a schedule of three turns",
            "SCHEDULE 1 2\n1",
            "schedule, 1 at 9, 2 at 11, 1 at 13",
        ),
    ];
    for (name, text, wanted) in rows {
        is_directive(&rt, name, text, wanted)?;
    }
    Ok(())
}

/// Words are the same in both cases, blanks and comments say nothing, and any number is read.
#[test]
fn reads_directives_in_other_spellings(rt: HostRuntime) -> Result<(), Fail> {
    let rows = [
        ("small letters", "turns 100", "turns 100 at 6"),
        ("mixed letters", "Session 16", "session 16 at 8"),
        ("comments", "# a\nQUANTUM/**/ 1 -- b", "quantum 1 at 16"),
        ("zeros in front", "QUANTUM 007", "quantum 7 at 8"),
        ("no turn at all", "TURNS 0", "turns 0 at 6"),
        (
            "38 digits",
            "SCHEDULE 99999999999999999999999999999999999999",
            "schedule, 99999999999999999999999999999999999999 at 9",
        ),
        ("a quoted table", "load data `data` bytes 0", "data 0 at 23"),
        (
            "a reserved word in backquotes",
            "LOAD DATA `order` BYTES 1",
            "order 1 at 24",
        ),
        (
            "a table named as the next word",
            "LOAD DATA bytes BYTES 3",
            "bytes 3 at 22",
        ),
    ];
    for (name, text, wanted) in rows {
        is_directive(&rt, name, text, wanted)?;
    }
    Ok(())
}

#[test]
fn names_what_begins_no_directive(rt: HostRuntime) -> Result<(), Fail> {
    let rows = [
        ("nothing", "^", "Syntax"),
        ("comments alone", "^# a\n/* b */", "Syntax"),
        ("an unknown word", "^PAUSE 1", "Syntax"),
        ("a statement of a session", "^KILL 1", "Syntax"),
        ("a word in backquotes", "^`quantum` 1", "Syntax"),
        ("a text", "^'QUANTUM' 1", "Syntax"),
        ("a number", "^1", "Syntax"),
        ("a bracket", "^(QUANTUM 1)", "Syntax"),
        ("a query", "^SELECT a FROM t", "NotSupported"),
        (
            "a table's definition",
            "^CREATE TABLE t (a INT)",
            "NotSupported",
        ),
        ("two bars", "^|| 1", "NotSupported"),
    ];
    for (name, text, kind) in rows {
        is_faulty(&rt, name, text, kind)?;
    }
    Ok(())
}

/// The number of a quantum, of turns and of a session, and what stands behind it.
#[test]
fn names_faults_of_numbers(rt: HostRuntime) -> Result<(), Fail> {
    let rows = [
        ("no number", "QUANTUM^", "Syntax"),
        ("no number, before a comment", "TURNS^ # 1", "Syntax"),
        ("no number of a session", "SESSION^", "Syntax"),
        ("a text", "QUANTUM ^'1'", "Syntax"),
        ("a minus", "TURNS ^-1", "Syntax"),
        ("a plus", "SESSION ^+1", "Syntax"),
        ("an equal sign", "QUANTUM ^= 1", "Syntax"),
        ("a bracket", "TURNS ^(1)", "Syntax"),
        ("a word", "SESSION ^one", "Syntax"),
        (
            "a word of other statements",
            "QUANTUM ^DEFAULT",
            "NotSupported",
        ),
        ("two numbers of a quantum", "QUANTUM 1 ^2", "Syntax"),
        ("two numbers of turns", "TURNS 1 ^2", "Syntax"),
        ("two numbers", "SESSION 1 ^2", "Syntax"),
        ("a dot behind the number", "TURNS 1^.5", "Syntax"),
        (
            "a slash behind the number",
            "QUANTUM 1 ^/ 2",
            "NotSupported",
        ),
        ("a word behind the number", "SESSION 1 ^KILL 2", "Syntax"),
    ];
    for (name, text, kind) in rows {
        is_faulty(&rt, name, text, kind)?;
    }
    Ok(())
}

#[test]
fn names_faults_of_schedules(rt: HostRuntime) -> Result<(), Fail> {
    let rows = [
        ("no turn", "SCHEDULE^", "Syntax"),
        ("a comma between turns", "SCHEDULE 1^, 2", "Syntax"),
        ("a word for a turn", "SCHEDULE ^all", "Syntax"),
        ("a star for a turn", "SCHEDULE ^*", "Syntax"),
        ("a minus behind a turn", "SCHEDULE 1 2 ^-1", "Syntax"),
        ("a word behind the turns", "SCHEDULE 1 2 ^x", "Syntax"),
        (
            "a word of other statements",
            "SCHEDULE 1 ^FOR 2",
            "NotSupported",
        ),
        ("a percent sign", "SCHEDULE 50^%", "NotSupported"),
    ];
    for (name, text, kind) in rows {
        is_faulty(&rt, name, text, kind)?;
    }
    Ok(())
}

#[test]
fn names_faults_of_loads(rt: HostRuntime) -> Result<(), Fail> {
    let rows = [
        ("LOAD alone", "LOAD^", "Syntax"),
        ("a table without DATA", "LOAD ^t BYTES 1", "Syntax"),
        ("INDEX in place of DATA", "LOAD ^INDEX", "Syntax"),
        ("no table", "LOAD DATA^", "Syntax"),
        ("a number for a table", "LOAD DATA ^1", "Syntax"),
        ("a file", "LOAD DATA ^'x'", "Syntax"),
        (
            "a bracket in place of the table",
            "LOAD DATA ^(a)",
            "Syntax",
        ),
        ("a reserved word", "LOAD DATA ^KEY BYTES 1", "Syntax"),
        (
            "a word of other statements",
            "LOAD DATA ^INTO",
            "NotSupported",
        ),
        ("a table and no more", "LOAD DATA t^", "Syntax"),
        (
            "a bracket behind the table",
            "LOAD DATA t ^(a) BYTES 1",
            "NotSupported",
        ),
        ("a table of a database", "LOAD DATA d^.t BYTES 1", "Syntax"),
        ("rows in place of bytes", "LOAD DATA t ^ROWS 1", "Syntax"),
        ("another LOAD DATA", "LOAD DATA LOCAL ^INFILE 'x'", "Syntax"),
        ("no number", "LOAD DATA t BYTES^", "Syntax"),
        ("a minus", "LOAD DATA t BYTES ^-1", "Syntax"),
        ("two numbers", "LOAD DATA t BYTES 1 ^2", "Syntax"),
    ];
    for (name, text, kind) in rows {
        is_faulty(&rt, name, text, kind)?;
    }
    Ok(())
}

/// A directive has no levels: where brackets go too deep, the first of them is its fault.
#[test]
fn names_the_fault_before_too_many_brackets(rt: HostRuntime) -> Result<(), Fail> {
    let text = repeated(rt.alloc(), "TURNS ", "(", 70, "1")?;
    is_directive(&rt, "70 brackets", text.as_str(), "Syntax at 6")
}

ghost use Rattle.sa_value.specs.Value.{value_at};
ghost use Rattle.sa_value.specs.Compare.{CanCompare};

use super::*;
use std::cmp::Ordering;
use std::process::Abort;
use std::test::Fail;

/// The operators in the order of a case's letters: `=`, `<=>`, `<>`, `<`, `<=`, `>`, `>=`.
const OPERATORS: [CompareOp; 7] = [
    CompareOp::Eq,
    CompareOp::NullEq,
    CompareOp::Ne,
    CompareOp::Lt,
    CompareOp::Le,
    CompareOp::Gt,
    CompareOp::Ge,
];

/// What a letter stands for: `F`, `U` or `T`.
fn truth_of(letter: char) -> Truth {
    match letter {
        'T' => Truth::True,
        'F' => Truth::False,
        _ => Truth::Unknown,
    }
}

#[test]
fn compares_numbers(rt: HostRuntime) {
    let big = i128::from(i64::MAX) + 1;
    let cases = [
        ("below", ValueRef::Int(1), ValueRef::Int(2), "FFTTTFF"),
        ("equal", ValueRef::Int(2), ValueRef::Int(2), "TTFFTFT"),
        ("signs", ValueRef::Int(-1), ValueRef::Int(-2), "FFTFFTT"),
        ("widths", ValueRef::Int(7), ValueRef::Big(7), "TTFFTFT"),
        (
            "one past",
            ValueRef::Int(i64::MAX),
            ValueRef::Big(big),
            "FFTTTFF",
        ),
        (
            "far apart",
            ValueRef::Big(big),
            ValueRef::Int(i64::MIN),
            "FFTFFTT",
        ),
        (
            "both wide",
            ValueRef::Big(-big),
            ValueRef::Big(big),
            "FFTTTFF",
        ),
    ];
    for (name, a, b, letters) in cases {
        check(&rt, name, a, b, letters);
    }
}

#[test]
fn compares_texts_by_bytes(rt: HostRuntime) {
    let cases = [
        ("below", "a", "b", "FFTTTFF"),
        ("equal", "a", "a", "TTFFTFT"),
        ("case counts", "a", "A", "FFTFFTT"),
        ("no padding", "a", "a ", "FFTTTFF"),
        ("empty", "", "a", "FFTTTFF"),
        ("past ASCII", "z", "\u{e9}", "FFTTTFF"),
    ];
    for (name, a, b, letters) in cases {
        check(&rt, name, ValueRef::Text(a), ValueRef::Text(b), letters);
    }
}

#[test]
fn compares_with_null(rt: HostRuntime) {
    check(&rt, "both", ValueRef::Null, ValueRef::Null, "UTUUUUU");
    check(&rt, "left", ValueRef::Null, ValueRef::Int(1), "UFUUUUU");
    check(&rt, "right", ValueRef::Text("a"), ValueRef::Null, "UFUUUUU");
    check(&rt, "a sum", ValueRef::Big(0), ValueRef::Null, "UFUUUUU");
}

fn check(rt: &impl Abort, name: &str, a: ValueRef<'_>, b: ValueRef<'_>, letters: &str)
    requires { CanCompare (value_at a) (value_at b) }
{
    for (op, letter) in OPERATORS.into_iter().zip(letters.chars()) {
        assert_eq!(rt;
            compare(op, a, b),
            truth_of(letter),
            "{name}: {a:?} {op:?} {b:?}"
        );
    }
}

#[test]
fn joins_truths(rt: HostRuntime) {
    let cases = [
        ("FF", 'F', 'F'),
        ("FU", 'F', 'U'),
        ("FT", 'F', 'T'),
        ("UF", 'F', 'U'),
        ("UU", 'U', 'U'),
        ("UT", 'U', 'T'),
        ("TF", 'F', 'T'),
        ("TU", 'U', 'T'),
        ("TT", 'T', 'T'),
    ];
    for (pair, and, or) in cases {
        let mut letters = pair.chars().map(truth_of);
        let a = letters.next().unwrap_or(Truth::Unknown);
        let b = letters.next().unwrap_or(Truth::Unknown);
        assert_eq!(rt; a.and(b), truth_of(and), "{pair}: AND");
        assert_eq!(rt; a.or(b), truth_of(or), "{pair}: OR");
    }
    for (a, not) in [('F', 'T'), ('U', 'U'), ('T', 'F')] {
        assert_eq!(rt; truth_of(a).not(), truth_of(not), "{a}: NOT");
    }
}

#[test]
fn orders_values(rt: HostRuntime) {
    let rising = [
        ValueRef::Null,
        ValueRef::Big(-1 << 100),
        ValueRef::Int(i64::MIN),
        ValueRef::Int(0),
        ValueRef::Big(1),
        ValueRef::Big(1 << 100),
        ValueRef::Text(""),
        ValueRef::Text("a"),
        ValueRef::Text("a "),
        ValueRef::Text("b"),
    ];
    for (i, a) in rising.into_iter().enumerate() {
        for (j, b) in rising.into_iter().enumerate() {
            assert_eq!(rt; order_of(a, b), i.cmp(&j), "{a:?} {b:?}");
        }
    }
    assert_eq!(rt;
        order_of(ValueRef::Int(7), ValueRef::Big(7)),
        Ordering::Equal
    );
}

#[test]
fn copies(rt: HostRuntime) -> Result<(), Fail> {
    let mut row = Row::new(rt.alloc());
    row.push(Value::Null)?;
    row.push(Value::Int(-5))?;
    row.push(Value::Big(1 << 100))?;
    row.push(Value::Text(Text::from_str(rt.alloc(), "Ann")?))?;
    let mut rows = Rows::new(rt.alloc());
    rows.push(row)?;
    for row in rows.as_slice() {
        for value in row.as_slice() {
            let copy = value.copy(rt.alloc())?;
            assert_eq!(rt;
                compare(CompareOp::NullEq, copy.view(), value.view()),
                Truth::True
            );
        }
    }
    Ok(())
}

#[test]
fn gives_back_what_it_holds(rt: HostRuntime) -> Result<(), Fail> {
    let string = String::from_str(rt.alloc(), "Cy")?;
    let text = Text::from_string(string);
    assert_eq!(rt; text.copy(rt.alloc())?.as_str(), "Cy");
    assert_eq!(rt; text.into_string().as_str(), "Cy");
    let mut texts = Texts::new(rt.alloc());
    assert!(rt; texts.is_empty());
    texts.push(Text::from_str(rt.alloc(), "a")?)?;
    texts.push(Text::from_str(rt.alloc(), "total")?)?;
    assert_eq!(rt; texts.len(), 2);
    let last = Texts::from_vec(texts.into_vec()).into_vec().pop();
    assert_eq!(rt; last.as_ref().map(|text| text.as_str()), Some("total"));
    Ok(())
}

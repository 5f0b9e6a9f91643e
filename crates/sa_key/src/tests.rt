use super::*;
use sa_value::{OutOfMemory, Text, Value, ValueRef};
use std::alloc::Global;
use std::cmp::Ordering;
use std::process::Abort;
use std::test::Fail;

/// The cell of a line with this number, without the blanks around it.
fn cell(line: &str, number: usize) -> &str {
    line.split('|').nth(number).unwrap_or("").trim()
}

/// The tuple that a text writes: `NULL, -5, BIG 5, 'a` is one of NULL, two numbers and a text.
fn tuple(text: &str) -> KeyRef<'_> {
    let mut tuple = KeyRef::new();
    if !text.is_empty() {
        for part in text.split(',') {
            if tuple.len() < 4 {
                tuple.push(value(part.trim()));
            }
        }
    }
    tuple
}

fn value(text: &str) -> ValueRef<'_> {
    if let Some(text) = text.strip_prefix('\'') {
        return ValueRef::Text(text);
    }
    match text.strip_prefix("BIG ") {
        Some(wide) => big(wide),
        None => int(text),
    }
}

fn big(text: &str) -> ValueRef<'_> {
    match text.parse::<i128>() {
        Ok(number) => ValueRef::Big(number),
        Err(_) => ValueRef::Null,
    }
}

fn int(text: &str) -> ValueRef<'_> {
    match text.parse::<i64>() {
        Ok(number) => ValueRef::Int(number),
        Err(_) => ValueRef::Null,
    }
}

/// Values, rising.
const RISING: &str = "\
NULL, BIG -18446744073709551616, -9223372036854775808, -5, BIG -4, 0, 7, BIG 8, \
9223372036854775807, BIG 9223372036854775808, ', 'A, 'a, 'a a, 'b, 'ba";

#[test]
fn orders_all_pairs_of_values(rt: HostRuntime) {
    for (i, a) in RISING.split(',').enumerate() {
        for (j, b) in RISING.split(',').enumerate() {
            assert_eq!(rt; order(&rt, a.trim(), b.trim()), i.cmp(&j), "{a} {b}");
        }
    }
}

/// How two tuples of one length stand.
fn order(rt: &impl Abort, a: &str, b: &str) -> Ordering {
    let (a, b) = (tuple(a), tuple(b));
    assert_eq!(rt; a.len(), b.len());
    order_tuples(&a, &b)
}

/// Tuples: name, one, another, and how they stand.
const TUPLES: &str = "\
no parts | | | Equal
two widths | 7 | BIG 7 | Equal
two NULLs | NULL | NULL | Equal
the first decides | 1, 9 | 2, 0 | Less
the second decides | 1, 9 | 1, 0 | Greater
NULL comes first | 1, NULL | 1, 0 | Less
a number before a text | 1, 0 | 1, ' | Less
the third decides | 1, 'a, 3 | 1, 'a, 2 | Greater
the fourth decides | 1, 'a, NULL, 'a | 1, 'a, NULL, 'b | Less
all four are equal | 1, 'a, NULL, BIG 4 | 1, 'a, NULL, 4 | Equal";

#[test]
fn orders_tuples(rt: HostRuntime) -> Result<(), Fail> {
    for line in TUPLES.split('\n') {
        let found = format!(in rt.alloc(); "{:?}", order(&rt, cell(line, 1), cell(line, 2)))?;
        assert_eq!(rt; found.as_str(), cell(line, 3), "{line}");
    }
    Ok(())
}

/// Cuts: name, a tuple, the tuple of a cut, and with which sides the cut lies behind the tuple.
const CUTS: &str = "\
the empty cut | 1, 2 | | Above
the empty cut, no parts | | | Above
a NULL at the empty cut | NULL | | Above
less | 1 | 2 | Below Above
equal | 2 | 2 | Above
greater | 3 | 2 | none
NULL at a cut of NULL | NULL | NULL | Above
NULL before a number | NULL | -9 | Below Above
a number behind NULL | -9 | NULL | none
a number before a text | 9 | ' | Below Above
a text behind a number | ' | 9 | none
the prefix is less | 1, 9 | 2 | Below Above
the prefix is equal | 2, 0 | 2 | Above
the prefix is equal, then NULL | 2, NULL | 2 | Above
the prefix is greater | 3, 0 | 2 | none
a wide prefix is equal | BIG 2, 0 | 2 | Above
two of three are less | 1, 1, 9 | 1, 2 | Below Above
two of three are equal | 1, 2, 9 | 1, 2 | Above
two of three are greater | 1, 3, 0 | 1, 2 | none
four, the last is less | 1, 'a, NULL, 3 | 1, 'a, NULL, 4 | Below Above
four are equal | 1, 'a, NULL, 4 | 1, 'a, NULL, 4 | Above
four, the last is greater | 1, 'a, NULL, 5 | 1, 'a, NULL, 4 | none
three of four are equal | 1, 'a, NULL, 5 | 1, 'a, NULL | Above";

#[test]
fn tells_what_lies_before_a_cut(rt: HostRuntime) {
    for line in CUTS.split('\n') {
        let sides = cell(line, 3);
        let below = is_before(&rt, line, Side::Below);
        assert_eq!(rt; below, sides.starts_with("Below"), "{line}, Below");
        let above = is_before(&rt, line, Side::Above);
        assert_eq!(rt; above, sides.ends_with("Above"), "{line}, Above");
    }
}

/// Whether the tuple of a line lies before its cut on this side.
fn is_before(rt: &impl Abort, line: &str, side: Side) -> bool {
    let tuple_of_line = tuple(cell(line, 1));
    let cut = CutRef {
        tuple: tuple(cell(line, 2)),
        side,
    };
    assert!(rt; cut.tuple.len() <= tuple_of_line.len());
    before_cut(&tuple_of_line, &cut)
}

#[test]
fn lends_a_cut(rt: HostRuntime) -> Result<(), Fail> {
    let cut = Cut {
        tuple: owned(rt.alloc())?,
        side: Side::Above,
    };
    assert_eq!(rt; cut.tuple.as_slice().len(), 4);
    assert!(rt; !cut.tuple.is_empty());
    let lent = cut.view();
    assert_eq!(rt; lent.side, Side::Above);
    assert!(rt; !lent.tuple.is_empty());
    let expected = tuple("NULL, -5, BIG 6, 'a");
    assert_eq!(rt; lent.tuple.len(), expected.len());
    assert_eq!(rt; order_tuples(&lent.tuple, &expected), Ordering::Equal);
    Ok(())
}

/// NULL, two numbers and a text.
fn owned(alloc: Global) -> Result<KeyTuple, OutOfMemory> {
    let mut values = sa_value::Values::new(alloc);
    values.push(Value::Null)?;
    let mut tuple = KeyTuple::from_values(values);
    tuple.push(Value::Int(-5))?;
    tuple.push(Value::Big(6))?;
    tuple.push(Value::Text(Text::from_str(alloc, "a")?))?;
    Ok(tuple)
}

/// Cuts: name, a side and a tuple, another side and tuple, and how they stand.
const ORDERED_CUTS: &str = "\
below and above | Below | 1 | Above | 1 | Less
above and below | Above | 1 | Below | 1 | Greater
both below | Below | 1, 'a | Below | 1, 'a | Equal
both above, two widths | Above | 7 | Above | BIG 7 | Equal
the first part decides | Above | 1, 9 | Below | 2 | Less
the second part decides | Below | 1, 3 | Above | 1, 2 | Greater
a shorter one below | Below | 1 | Below | 1, NULL | Less
a shorter one above | Above | 1 | Above | 1, 'z | Greater
a longer one and a shorter one below | Below | 1, NULL | Below | 1 | Greater
a longer one and a shorter one above | Above | 1, 'z | Above | 1 | Less
none below | Below | | Below | NULL | Less
none above | Above | | Above | 'z | Greater
none below and none above | Below | | Above | | Less
NULL and a number | Above | NULL | Below | -9223372036854775808 | Less
a shorter one that is behind | Below | 2 | Above | 1, 9 | Greater
four parts and three | Below | 1, 2, 3, 4 | Above | 1, 2, 3 | Less";

#[test]
fn orders_cuts(rt: HostRuntime) -> Result<(), Fail> {
    for line in ORDERED_CUTS.split('\n') {
        let order = order_cuts(&lent_cut(line, 1), &lent_cut(line, 3));
        let found = format!(in rt.alloc(); "{order:?}")?;
        assert_eq!(rt; found.as_str(), cell(line, 5), "{line}");
    }
    Ok(())
}

/// The cut whose side stands in this cell of a line, and its tuple in the next.
fn lent_cut(line: &str, number: usize) -> CutRef<'_> {
    let side = match cell(line, number) {
        "Below" => Side::Below,
        _ => Side::Above,
    };
    CutRef {
        tuple: tuple(cell(line, number.saturating_add(1))),
        side,
    }
}

/// Cuts: name, a side and a tuple, and the tuple of the canonical form.
const FORMS: &str = "\
above keeps NULLs | Above | 1, NULL, NULL | 1, NULL, NULL
below drops a NULL | Below | 1, NULL | 1
below drops all at the end | Below | 1, NULL, 'a, NULL | 1, NULL, 'a
below NULL is below all | Below | NULL |
below keeps a NULL in front | Below | NULL, 2 | NULL, 2
below nothing | Below | |";

#[test]
fn writes_canonical_forms(rt: HostRuntime) -> Result<(), Fail> {
    for line in FORMS.split('\n') {
        let lent = lent_cut(line, 1);
        let form = held_cut(rt.alloc(), &lent)?.canonical();
        let expected = CutRef {
            tuple: tuple(cell(line, 3)),
            side: lent.side,
        };
        assert_eq!(rt; form.tuple.len(), expected.tuple.len(), "{line}");
        let order = order_cuts(&form.view(), &expected);
        assert_eq!(rt; order, Ordering::Equal, "{line}");
    }
    Ok(())
}

/// A copy of a cut that is lent.
fn held_cut(alloc: Global, cut: &CutRef<'_>) -> Result<Cut, OutOfMemory> {
    let mut tuple = KeyTuple::new(alloc);
    for index in 0..cut.tuple.len() {
        let value = held_value(alloc, cut.tuple.get(index))?;
        if tuple.len() < 4 {
            tuple.push(value)?;
        }
    }
    Ok(Cut {
        tuple,
        side: cut.side,
    })
}

fn held_value(alloc: Global, value: ValueRef<'_>) -> Result<Value, OutOfMemory> {
    Ok(match value {
        ValueRef::Null => Value::Null,
        ValueRef::Int(number) => Value::Int(number),
        ValueRef::Big(number) => Value::Big(number),
        ValueRef::Text(text) => Value::Text(Text::from_str(alloc, text)?),
    })
}

#[test]
fn copies_a_range(rt: HostRuntime) -> Result<(), Fail> {
    let range = KeyRange {
        from: Cut {
            tuple: owned(rt.alloc())?,
            side: Side::Below,
        },
        to: Cut {
            tuple: owned(rt.alloc())?,
            side: Side::Above,
        },
    };
    let copy = range.copy(rt.alloc())?.canonical();
    assert_eq!(rt; copy.from.side, Side::Below);
    assert_eq!(rt; copy.to.side, Side::Above);
    let order = order_cuts(&copy.from.view(), &range.from.view());
    assert_eq!(rt; order, Ordering::Equal);
    let order = order_cuts(&copy.to.view(), &range.to.view());
    assert_eq!(rt; order, Ordering::Equal);
    let form = range.canonical();
    assert_eq!(rt; form.from.tuple.len(), 4);
    Ok(())
}

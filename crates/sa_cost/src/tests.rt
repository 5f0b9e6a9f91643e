use super::*;

/// The cell of a line with this number, as a number.
fn number(line: &str, place: usize) -> u128 {
    match cell(line, place).parse::<u128>() {
        Ok(number) => number,
        Err(_) => 0,
    }
}

/// The cell of a line with this number, as a number of rows.
fn rows(line: &str, place: usize) -> u64 {
    match cell(line, place).parse::<u64>() {
        Ok(number) => number,
        Err(_) => 0,
    }
}

fn cell(line: &str, place: usize) -> &str {
    line.split('|').nth(place).unwrap_or("").trim()
}

/// Ways of reading: name, rows, and what scan, index and ref cost.
const READS: &str = "\
no row | 0 | 20 | 20 | 20
one row | 1 | 25 | 24 | 26
a small table | 16 | 100 | 84 | 116
the largest table | 1000000 | 5000020 | 4000020 | 6000020
all numbers of rows | 18446744073709551615 | 92233720368547758095 | 73786976294838206480 | 110680464442257309710";

#[test]
fn tells_what_reading_rows_costs(rt: HostRuntime) {
    for line in READS.split('\n') {
        assert_eq!(rt; scan_cost(rows(line, 1)), number(line, 2), "{line}");
        assert_eq!(rt; index_cost(rows(line, 1)), number(line, 3), "{line}");
        assert_eq!(rt; ref_cost(rows(line, 1)), number(line, 4), "{line}");
    }
    assert_eq!(rt; ONE_ROW_COST, 26);
}

/// Ranges: name, ranges, rows in them, and the cost.
const RANGES: &str = "\
no range | 0 | 0 | 0
an empty range | 1 | 0 | 20
one row | 1 | 1 | 26
two ranges with two rows | 2 | 2 | 52
the most ranges | 1024 | 1000000 | 6020480
all numbers | 18446744073709551615 | 18446744073709551615 | 479615345916448341990";

#[test]
fn tells_what_ranges_cost(rt: HostRuntime) {
    for line in RANGES.split('\n') {
        let found = range_cost(rows(line, 1), rows(line, 2));
        assert_eq!(rt; found, number(line, 3), "{line}");
    }
}

/// Two costs: name, both, their sum and their product.
const PAIRS: &str = "\
nothing | 0 | 0 | 0 | 0
small ones | 26 | 30 | 56 | 780
nothing of much | 0 | 1329227995784915872903807060280344576 | 1329227995784915872903807060280344576 | 0
up to the stop | 1329227995784915872903807060280344575 | 1 | 1329227995784915872903807060280344576 | 1329227995784915872903807060280344575
a sum past the stop | 1329227995784915872903807060280344575 | 2 | 1329227995784915872903807060280344576 | 1329227995784915872903807060280344576
a product up to the stop | 1152921504606846976 | 1152921504606846976 | 2305843009213693952 | 1329227995784915872903807060280344576
a product below the stop | 1152921504606846975 | 1152921504606846976 | 2305843009213693951 | 1329227995784915871750885555673497600
past all numbers | 340282366920938463463374607431768211455 | 340282366920938463463374607431768211455 | 1329227995784915872903807060280344576 | 1329227995784915872903807060280344576";

#[test]
fn adds_and_multiplies_costs(rt: HostRuntime) {
    for line in PAIRS.split('\n') {
        let (a, b) = (number(line, 1), number(line, 2));
        assert_eq!(rt; add_cost(a, b), number(line, 3), "{line}");
        assert_eq!(rt; times_cost(a, b), number(line, 4), "{line}");
    }
    assert_eq!(rt; GREATEST_COST, 1329227995784915872903807060280344576);
}

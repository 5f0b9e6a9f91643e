//! Tests as lines of a table, with cells between bars, and texts in those cells.
//!
//! In a text `¶` is a line feed, and `<13>` the byte 13.

use std::alloc::{AllocError, Global};
use std::process::Abort;

/// The cell of a line with this number, without the blanks around it.
pub(crate) fn cell(line: &str, number: usize) -> &str {
    line.split('|').nth(number).unwrap_or("").trim()
}

/// Compares what came of a line with what is expected.
pub(crate) fn is_same(rt: &impl Abort, line: &str, found: &str, expected: &str) {
    assert_eq!(rt; found, expected, "{line}");
}

/// The bytes that a cell stands for.
pub(crate) fn bytes(alloc: Global, cell: &str) -> Result<Vec<u8>, AllocError> {
    let mut bytes = Vec::new(alloc);
    let mut is_first = true;
    for line in cell.split('¶') {
        if !is_first {
            bytes.push(b'\n')?;
        }
        push_line(&mut bytes, line)?;
        is_first = false;
    }
    Ok(bytes)
}

fn push_line(bytes: &mut Vec<u8>, line: &str) -> Result<(), AllocError> {
    for piece in line.split('<') {
        push_piece(bytes, piece)?;
    }
    Ok(())
}

fn push_piece(bytes: &mut Vec<u8>, piece: &str) -> Result<(), AllocError> {
    let (number, rest) = piece.split_once('>').unwrap_or(("", piece));
    if let Ok(byte) = number.parse::<u8>() {
        bytes.push(byte)?;
    }
    bytes.extend_from_slice(rest.as_bytes())?;
    Ok(())
}

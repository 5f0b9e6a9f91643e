//! LOAD DATA: the block behind its `;`, whose records are rows.

ghost use Rattle.std.specs.Prelude.{◌≡◌, ◌+◌, ◌-◌, ◌<◌, ◌≤◌, ◌^◌, List, ℕ, length, drop, slice_range, slice_set, IsTrue, OnOk, IfOk, IfErr};
ghost use Rattle.std.specs.Str.{IsCharBoundary, IsUtf8};
ghost use Rattle.sa_table.specs.Table.{table_at};
ghost use Rattle.sa_script.specs.Piece.{IsPiece, place_behind};
ghost use Rattle.sa_script.specs.Load.{Loads, LoadsBlock, CantLoad, CantLoadBlock, IsBlockMissing};
ghost use Rattle.sa_script.specs.Load as spec;
ghost use Rattle.sa_script.specs.inner.Block as blocks;
ghost use Rattle.sa_script.specs.inner.Block.{StandsIn, FindsLineEnd};
ghost use Rattle.sa_script.specs.inner.Tells.{Tells};

use crate::fault::{ScriptFault, ScriptKind};
use crate::named::table_named;
use crate::piece::Piece;
use sa_ast::{NameTree, NumberTree};
use sa_load::{LoadCause, LoadFault, load_csv};
use sa_table::Tables;
use std::alloc::Global;

/// Where a block stands in its script.
#[derive(Clone, Copy, Debug)]
pub(crate) struct Block {
    start: usize,
    end: usize,
}

/// Puts the rows of a block into its table. Answers how many bytes stand between the `;` and the next
/// piece.
pub(crate) fn load(
    alloc: Global,
    tables: &mut Tables,
    script: &str,
    piece: &Piece<'_>,
    name: &NameTree,
    count: &NumberTree,
) -> Result<usize, ScriptFault>
    requires size { length script.now < 2 ^ 63 }
    requires within { place_behind piece.now ≤ length script.now }
    ensures loads { let behind = drop (place_behind piece.now) script.now in
        IfOk result (Loads tables.old piece.now name.now count.now behind tables.new) }
    ensures cut { IfOk result
        (λ skipped. IsCharBoundary script.now (place_behind piece.now + skipped)) }
    ensures fault { let behind = drop (place_behind piece.now) script.now in
        IfErr result (Tells (CantLoad tables.old piece.now name.now count.now behind)) }
{
    let table = table_named(tables, name)?;
    let block = block_behind(script, piece, count)?;
    load_block(alloc, tables, table, script, block)?;
    Ok(block.end - piece.behind())
}

/// Where the block of so many bytes stands behind a piece.
fn block_behind(script: &str, piece: &Piece<'_>, count: &NumberTree) -> Result<Block, ScriptFault>
    requires size { length script.now < 2 ^ 63 }
    requires within { place_behind piece.now ≤ length script.now }
    ensures stands { IfOk result (StandsIn script.now piece.now count.now) }
    ensures fault { let behind = drop (place_behind piece.now) script.now in
        IfErr result (Tells (IsBlockMissing piece.now count.now behind)) }
{
    let behind = piece.behind();
    if !piece.is_closed() {
        return Err(ScriptFault::at(ScriptKind::BlockMissing, behind));
    }
    let Some(line_end) = line_end_len(&script.as_bytes()[behind..]) else {
        return Err(ScriptFault::at(ScriptKind::BlockMissing, behind));
    };
    let start = behind + line_end;
    let left = script.len() - start;
    if count.number > left as u128 {
        return Err(ScriptFault::at(ScriptKind::BlockMissing, start));
    }
    Ok(Block {
        start,
        end: start + count.number as usize,
    })
}

/// How many bytes the line end takes that stands at the front: LF, or CR LF.
fn line_end_len(bytes: &[u8]) -> Option<usize>
    ensures { FindsLineEnd bytes.now result }
{
    match bytes {
        [b'\n', ..] => Some(1),
        [b'\r', b'\n', ..] => Some(2),
        _ => None,
    }
}

/// Puts the rows of a block into a table.
fn load_block(
    alloc: Global,
    tables: &mut Tables,
    table: u32,
    script: &str,
    block: Block,
) -> Result<(), ScriptFault>
    requires there { table < length tables.old }
    requires from { block.start ≤ block.end }
    requires to { block.end ≤ length script.now }
    requires cut { IsCharBoundary script.now block.start }
    ensures loads { let bytes = slice_range script.now block.start block.end in
        OnOk result (LoadsBlock (table_at tables.old table) bytes (table_at tables.new table)) }
    ensures others { OnOk result (tables.new ≡ slice_set tables.old table (table_at tables.new table)) }
    ensures cut { OnOk result (IsCharBoundary script.now block.end) }
    ensures fault { let bytes = slice_range script.now block.start block.end in
        IfErr result (Tells (CantLoadBlock (table_at tables.old table) block.start bytes)) }
{
    let bytes = &script.as_bytes()[block.start..block.end];
    let loaded = match load_csv(alloc, bytes, tables, table) {
        Ok(loaded) => loaded,
        Err(fault) => return Err(load_fault(fault, block.start)),
    };
    if !script.is_char_boundary(block.end) {
        let record = u64::from(loaded);
        return Err(ScriptFault::of_row(ScriptKind::NotUtf8, block.start, record));
    }
    Ok(())
}

/// A fault of a record, at the block's place.
fn load_fault(fault: LoadFault, place: usize) -> ScriptFault
    ensures { result ≡ blocks.load_fault place fault }
{
    match fault {
        LoadFault::Bad { number, cause } => {
            ScriptFault::of_row(cause_kind(cause), place, number)
        }
        LoadFault::OutOfMemory => ScriptFault::OutOfMemory,
    }
}

/// How the cause of a record is called.
fn cause_kind(cause: LoadCause) -> ScriptKind
    ensures { result ≡ spec.cause_kind cause }
{
    match cause {
        LoadCause::RowFull => ScriptKind::RowFull,
        LoadCause::Arity => ScriptKind::Arity,
        LoadCause::NotUtf8 => ScriptKind::NotUtf8,
        LoadCause::NotNumber => ScriptKind::NotNumber,
        LoadCause::NullNotAllowed { .. } => ScriptKind::NullNotAllowed,
        LoadCause::TypeMismatch { .. } => ScriptKind::TypeMismatch,
        LoadCause::OutOfRange { .. } => ScriptKind::OutOfRange,
        LoadCause::TooLong { .. } => ScriptKind::TooLong,
        LoadCause::DuplicateKey { .. } => ScriptKind::DuplicateKey,
    }
}

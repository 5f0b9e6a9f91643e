//! What a piece says after those before it.

ghost use Rattle.std.specs.Prelude.{◌≡◌, ◌+◌, ◌<◌, ◌≤◌, ◌^◌, length, drop, OnOk, IfOk, IfErr};
ghost use Rattle.std.specs.Str.{IsCharBoundary};
ghost use Rattle.sa_script.specs.Piece.{place_behind};
ghost use Rattle.sa_script.specs.inner.Step.{SaysThis, FailsWith, SetsUpAs, CantSetUpAs};
ghost use Rattle.sa_script.specs.inner.Tells.{Tells};

use crate::create::create;
use crate::direct::direct;
use crate::fault::{ScriptFault, ScriptKind};
use crate::insert::insert;
use crate::kind::{Kind, kind_of};
use crate::piece::Piece;
use crate::reads::{read_directive, read_setup};
use crate::said::Said;
use crate::statement::put_statement;
use sa_ast::Statement;
use sa_table::Tables;
use std::alloc::Global;

/// Does what a piece says. Answers how many bytes stand between its `;` and the next piece.
pub(crate) fn take_piece(
    alloc: Global,
    said: &mut Said,
    script: &str,
    piece: &Piece<'_>,
) -> Result<usize, ScriptFault>
    requires size { length script.now < 2 ^ 63 }
    requires within { place_behind piece.now ≤ length script.now }
    requires cut { IsCharBoundary script.now (place_behind piece.now) }
    requires few { length said.old.sessions ≤ 16 }
    ensures says { let behind = drop (place_behind piece.now) script.now in
        IfOk result (SaysThis said.old piece.now behind said.new) }
    ensures cut { IfOk result
        (λ skipped. IsCharBoundary script.now (place_behind piece.now + skipped)) }
    ensures few { OnOk result (length said.new.sessions ≤ 16) }
    ensures fault { let behind = drop (place_behind piece.now) script.now in
        IfErr result (Tells (FailsWith said.old piece.now behind)) }
{
    match kind_of(said.stage, piece) {
        Kind::Blank => Ok(0),
        Kind::Directive => {
            let tree = read_directive(alloc, piece)?;
            direct(alloc, said, script, piece, tree)
        }
        Kind::Setup => {
            set_up(alloc, &mut said.tables, piece)?;
            Ok(0)
        }
        Kind::Statement => {
            put_statement(alloc, &mut said.sessions, piece)?;
            Ok(0)
        }
        Kind::Late { place } => Err(ScriptFault::at(ScriptKind::AfterSchedule, place)),
    }
}

/// Makes a table, or puts rows into one.
fn set_up(alloc: Global, tables: &mut Tables, piece: &Piece<'_>) -> Result<(), ScriptFault>
    requires { piece.now.place + length piece.now.text < 2 ^ 64 }
    ensures sets_up { OnOk result (SetsUpAs tables.old piece.now tables.new) }
    ensures fault { IfErr result (Tells (CantSetUpAs tables.old piece.now)) }
{
    match read_setup(alloc, piece)? {
        Statement::Create(tree) => create(alloc, tables, tree),
        Statement::Insert(tree) => insert(alloc, tables, tree),
        _ => unreachable!(),
    }
}

// Matrices of rows.
ghost use Rattle.std.specs.Prelude.{◌≡◌, IfOk, OnOk, IsErrOf, map, reverse, None as Nothing, Some as Just};
ghost use Rattle.sp_llt.specs.Place.{labels};
ghost use Rattle.sp_module_defs.specs.Cells.{cell_at};
ghost use Rattle.sp_module_defs.specs.Cells.{IsSquareUnitriangular};
ghost use Rattle.sp_llt.specs.Filled.{IsFilled};
ghost use Rattle.sp_matrix.specs.Matrix.{columns_of, in_block, matrix, decomposition_of, block_of};
ghost use Rattle.sp_matrix.specs.Refusal.{refused_column};
ghost use Rattle.sp_matrix.specs.Scope.{table_of, within};
ghost use Rattle.sp_matrix.specs.Triangular.{IsUnitriangular};
ghost use Rattle.sp_matrix.specs.Walk.{row_of, vectors_of};

use crate::cells::cells;
use crate::columns::column_rows;
use crate::headings::heading;
use crate::scope::{Form, Scope};
use sp_core::Key;
use sp_fock::{Grid, Vector};
use sp_llt::{Ctx, Entry, FirstRefused, RowsFault};
use sp_partition::{Partition, all_of};
use std::alloc::{AllocError, Global};
use std::sync::Arc;

/// The matrix of the coefficients: its lines are the partitions of the degree and its columns the e-regular ones, both
/// descending.
///
/// `Refused` where a column has no row, with the greatest such column.
#[tactic(auto, unfolding(crate::specs::Scope::within, crate::specs::Scope::table_of))]
pub fn crystal(alloc: Global, ctx: &Ctx, rows: &[Arc<Entry>]) -> Result<Grid, RowsFault>
    requires { IsFilled ctx.now rows.now }
    ensures grid { IfOk result (λ grid. grid ≡ matrix ctx.now.e ctx.now.degree) }
    ensures triangular { IfOk result IsUnitriangular }
    ensures square { IfOk result (λ grid. IsSquareUnitriangular grid.columns (cell_at grid)) }
    ensures whole { OnOk result
        (refused_column ctx.now.e ctx.now.limit (columns_of ctx.now.e ctx.now.degree) ≡ Nothing) }
    ensures refused { (refused : FirstRefused) → IsErrOf result (RowsFault.Refused refused) →
        refused_column ctx.now.e ctx.now.limit (columns_of ctx.now.e ctx.now.degree) ≡ Just refused }
{
    table(alloc, ctx, rows, &Scope::All, Form::Polynomial)
}

/// The matrix of the values of the coefficients at v = 1, which are constants.
///
/// `Refused` where a column has no row, with the greatest such column.
#[tactic(auto, unfolding(crate::specs::Scope::within, crate::specs::Scope::table_of))]
pub fn decomposition(alloc: Global, ctx: &Ctx, rows: &[Arc<Entry>]) -> Result<Grid, RowsFault>
    requires { IsFilled ctx.now rows.now }
    ensures grid { IfOk result (λ grid. grid ≡ decomposition_of ctx.now.e ctx.now.degree) }
    ensures triangular { IfOk result IsUnitriangular }
    ensures square { IfOk result (λ grid. IsSquareUnitriangular grid.columns (cell_at grid)) }
    ensures whole { OnOk result
        (refused_column ctx.now.e ctx.now.limit (columns_of ctx.now.e ctx.now.degree) ≡ Nothing) }
    ensures refused { (refused : FirstRefused) → IsErrOf result (RowsFault.Refused refused) →
        refused_column ctx.now.e ctx.now.limit (columns_of ctx.now.e ctx.now.degree) ≡ Just refused }
{
    table(alloc, ctx, rows, &Scope::All, Form::Constant)
}

/// The part of the decomposition matrix with the lines and the columns whose core is this one.
///
/// `Refused` where one of these columns has no row, with the greatest such column.
#[tactic(auto, unfolding(crate::specs::Scope::within, crate::specs::Scope::table_of))]
pub fn block(
    alloc: Global,
    ctx: &Ctx,
    rows: &[Arc<Entry>],
    core: &Partition,
) -> Result<Grid, RowsFault>
    requires { IsFilled ctx.now rows.now }
    ensures grid { IfOk result (λ grid. grid ≡ block_of ctx.now.e ctx.now.degree core.now) }
    ensures triangular { IfOk result IsUnitriangular }
    ensures square { IfOk result (λ grid. IsSquareUnitriangular grid.columns (cell_at grid)) }
    ensures whole { OnOk result (refused_column ctx.now.e ctx.now.limit
        (in_block ctx.now.e core.now (columns_of ctx.now.e ctx.now.degree)) ≡ Nothing) }
    ensures refused { (refused : FirstRefused) → IsErrOf result (RowsFault.Refused refused) →
        refused_column ctx.now.e ctx.now.limit
        (in_block ctx.now.e core.now (columns_of ctx.now.e ctx.now.degree)) ≡ Just refused }
{
    table(alloc, ctx, rows, &Scope::Block(*core), Form::Constant)
}

// The table of the lines and columns within the scope.
fn table(
    alloc: Global,
    ctx: &Ctx,
    rows: &[Arc<Entry>],
    scope: &Scope,
    form: Form,
) -> Result<Grid, RowsFault>
    requires { IsFilled ctx.now rows.now }
    ensures grid { IfOk result (λ grid. grid ≡ table_of ctx.now.e ctx.now.degree scope.now form) }
    ensures triangular { IfOk result IsUnitriangular }
    ensures square { IfOk result (λ grid. IsSquareUnitriangular grid.columns (cell_at grid)) }
    ensures whole { OnOk result (refused_column ctx.now.e ctx.now.limit
        (within ctx.now.e scope.now (columns_of ctx.now.e ctx.now.degree)) ≡ Nothing) }
    ensures refused { (refused : FirstRefused) → IsErrOf result (RowsFault.Refused refused) →
        refused_column ctx.now.e ctx.now.limit
        (within ctx.now.e scope.now (columns_of ctx.now.e ctx.now.degree)) ≡ Just refused }
{
    let rows = column_rows(alloc, ctx, rows, scope)?;
    match grid(alloc, ctx, &rows, scope, form) {
        Ok(grid) => Ok(grid),
        Err(_) => Err(RowsFault::Memory),
    }
}

// The table with these rows of its columns.
fn grid(
    alloc: Global,
    ctx: &Ctx,
    rows: &[&Vector],
    scope: &Scope,
    form: Form,
) -> Result<Grid, AllocError>
    requires { vectors_of rows.now ≡
        map (row_of ctx.now.e ctx.now.degree) (within ctx.now.e scope.now (reverse (labels ctx.now))) }
    ensures table { IfOk result (λ grid. grid ≡ table_of ctx.now.e ctx.now.degree scope.now form) }
    ensures triangular { IfOk result IsUnitriangular }
    ensures square { IfOk result (λ grid. IsSquareUnitriangular grid.columns (cell_at grid)) }
{
    let Key { e, degree, .. } = ctx.key();
    let columns = heading(alloc, e, scope, ctx.regulars())?;
    let lines = heading(alloc, e, scope, &all_of(alloc, degree)?)?;
    let cells = cells(alloc, rows, &lines, form)?;
    Ok(Grid::from_cells(alloc, degree, columns, lines, cells))
}

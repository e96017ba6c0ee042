// Who makes the rows of a degree.
ghost use Rattle.std.specs.Prelude.{◌≡◌, ◌≤◌, ◌<◌, ◌^◌, true, false, IfOk, OnOk, IsErrOf};
ghost use Rattle.sp_module_defs.specs.Cells.{cell_at};
ghost use Rattle.sp_matrix.specs.Agreements.{HasAll, agreement_of, is_past};
ghost use Rattle.sp_llt.specs.Filled.{IsFilled};

use sp_fock::Grid;
use sp_llt::{Ctx, Entry};
use sp_matrix::{Agreement, CompareFault, compare_alone};
use sp_pool::fill_alone;
use std::alloc::{AllocError, Global};
use std::sync::Arc;

/// Makes all rows of a degree, and holds a matrix against its Jantzen sums.
pub(crate) trait Filler {
    /// The entries of all ranks, ascending.
    fn fill(&self, alloc: Global, ctx: &Ctx) -> Result<Vec<Arc<Entry>>, AllocError>
        ensures { IfOk result (λ rows. IsFilled ctx.now rows.items) };

    /// How far a matrix agrees with the Jantzen sums of its lines.
    fn compare(
        &self,
        alloc: Global,
        e: u8,
        grid: &Grid,
        limit: u128,
    ) -> Result<Agreement, CompareFault>
        requires e_least { 2 ≤ e }
        requires e_most { e ≤ 64 }
        requires least { 1 ≤ limit }
        requires most { limit < 2 ^ 127 }
        requires all { HasAll e grid.now }
        ensures agreement { IfOk result (λ agreement. agreement ≡ agreement_of e (cell_at grid.now) grid.now.lines) }
        ensures within { OnOk result (is_past e limit (cell_at grid.now) grid.now.lines ≡ false) }
        ensures too_large { IsErrOf result CompareFault.TooLarge →
            is_past e limit (cell_at grid.now) grid.now.lines ≡ true };
}

/// The caller's thread.
#[derive(Clone, Copy, Debug)]
pub(crate) struct Alone;

impl Filler for Alone {
    fn fill(&self, alloc: Global, ctx: &Ctx) -> Result<Vec<Arc<Entry>>, AllocError> {
        fill_alone(alloc, ctx)
    }

    fn compare(
        &self,
        alloc: Global,
        e: u8,
        grid: &Grid,
        limit: u128,
    ) -> Result<Agreement, CompareFault> {
        compare_alone(alloc, e, grid, limit)
    }
}

// What is told in the labels of a convention.
ghost use Rattle.std.specs.Prelude.{◌≡◌, ◌++◌, IfOk, OnOk};
ghost use Rattle.sp_defs.specs.Text.{vector_text};
ghost use Rattle.sp_replies.specs.Labels.{fock_vector_in, grid_in as grid_by, refusal_in as refusal_by};
ghost use Rattle.sp_replies.specs.Words.{line_of};

use crate::refusals::Refusal;
use crate::vectors::put_vector;
use sp_fock::{Grid, Vector};
use sp_lang::Convention;
use sp_matrix::{conjugate_grid, conjugate_vector};
use std::alloc::{AllocError, Global};

/// The refusal with the partitions that it names in the labels of the convention.
pub fn refusal_in(convention: Convention, why: &Refusal) -> Refusal
    ensures { result ≡ refusal_by convention why.now }
{
    match why {
        Refusal::LargeColumn { column } => Refusal::LargeColumn {
            column: convention.label(column),
        },
        Refusal::Stray { at } => Refusal::Stray {
            at: convention.label(at),
        },
        Refusal::StrayColumn { column, at } => Refusal::StrayColumn {
            column: convention.label(column),
            at: convention.label(at),
        },
        other => *other,
    }
}

/// The grid in the labels of the convention: under Regular it is handed back as it is.
pub fn grid_in(alloc: Global, convention: Convention, grid: Grid) -> Result<Grid, AllocError>
    ensures { IfOk result (λ g. g ≡ grid_by convention grid) }
{
    match convention {
        Convention::Regular => Ok(grid),
        Convention::Restricted => conjugate_grid(alloc, &grid),
    }
}

/// A vector as a line, in the labels of the convention. An `Err` leaves `out` unspecified.
pub(crate) fn put_vector_in(
    alloc: Global,
    convention: Convention,
    vector: &Vector,
    out: &mut Vec<u8>,
) -> Result<(), AllocError>
    ensures { OnOk result (out.new.items ≡
        out.old.items ++ line_of (vector_text (fock_vector_in convention vector.now).entries)) }
{
    match convention {
        Convention::Regular => put_vector(alloc, vector, out),
        Convention::Restricted => put_vector(alloc, &conjugate_vector(alloc, vector)?, out),
    }
}

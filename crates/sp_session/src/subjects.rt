// What pages show, in the labels of a convention.
ghost use Rattle.std.specs.Prelude.{◌≡◌, ◌≤◌, ◌<◌, ◌^◌, IfOk};
ghost use Rattle.sp_session.specs.Subjects.{IsSubject, table_in as table_by, table_of};

use crate::fillers::Filler;
use crate::inverses::{cartan_table, inverse_table};
use crate::tables::{Table, block_table, crystal_table, decomposition_table};
use sp_lang::Convention;
use sp_partition::Partition;
use sp_replies::{grid_in, refusal_in};
use std::alloc::{AllocError, Global};

/// What a page shows.
#[derive(Clone, Copy, Debug)]
pub(crate) enum Subject {
    /// The matrix of a degree.
    Crystal(u8, u8),
    /// The matrix of a degree at v = 1.
    Decomposition(u8, u8),
    /// The block whose core this word stands for, of this weight, at v = 1.
    Block(u8, Partition, u64),
    /// The inverse of the square matrix of a degree.
    Inverse(u8, u8),
    /// The Cartan matrix of a degree.
    Cartan(u8, u8),
}

/// The grid of a page, with the labels of a convention where it touches them. An `Err` is want of memory.
pub(crate) fn subject_table<F: Filler>(
    alloc: Global,
    limit: u128,
    convention: Convention,
    filler: &F,
    subject: &Subject,
) -> Result<Table, AllocError>
    requires least { 1 ≤ limit }
    requires most { limit < 2 ^ 127 }
    requires subject { IsSubject subject.now }
    ensures { IfOk result (λ table. table ≡ table_of limit convention subject.now) }
{
    match subject {
        Subject::Crystal(e, n) => {
            table_in(
                alloc,
                convention,
                crystal_table(alloc, limit, filler, *e, *n)?,
            )
        }
        Subject::Decomposition(e, n) => {
            table_in(
                alloc,
                convention,
                decomposition_table(alloc, limit, filler, *e, *n)?,
            )
        }
        Subject::Block(e, kappa, w) => {
            let core = convention.label(kappa);
            table_in(
                alloc,
                convention,
                block_table(alloc, limit, filler, *e, &core, *w)?,
            )
        }
        Subject::Inverse(e, n) => inverse_table(alloc, limit, filler, *e, *n),
        Subject::Cartan(e, n) => cartan_table(alloc, limit, filler, *e, *n),
    }
}

// The same grid, or why there is none, with the labels of the convention.
fn table_in(alloc: Global, convention: Convention, table: Table) -> Result<Table, AllocError>
    ensures { IfOk result (λ shown. shown ≡ table_by convention table) }
{
    match table {
        Ok(grid) => Ok(Ok(grid_in(alloc, convention, grid)?)),
        Err(why) => Ok(Err(refusal_in(convention, &why))),
    }
}

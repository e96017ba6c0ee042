// Conjugates of vectors and of grids.
ghost use Rattle.std.specs.Prelude.{◌≡◌, ℕ, List, IfOk, map, reverse};
ghost use Rattle.std.specs.List.{AllByRecursion};
ghost use Rattle.std.specs.List.Sorted.{IsPermutation, IsSortedByKey};
ghost use Rattle.sp_defs.specs.Partition.{Ascending, IsPartition, conjugate, order};
ghost use Rattle.sp_defs.specs.Power.{FockVector, IsVector, Vector as VectorValue, fock_vector, vector_of};
ghost use Rattle.sp_fock_law.specs.Grid.{GridValue, IsGrid, IsHeading};
ghost use Rattle.sp_module_defs.specs.Cells.{place as place_of};
ghost use Rattle.sp_matrix.specs.Conjugates.{conjugate_entry, conjugate_fock_vector, conjugates, with_place};
ghost use Rattle.sp_matrix.specs.Conjugates.{conjugate_grid as grid_of_conjugates};
ghost use Rattle.sp_matrix.specs.Conjugates.{conjugate_vector as vector_of_conjugates};

use crate::moved::moved_cells;
use sp_fock::{Grid, Vector};
use sp_laurent::Laurent;
use sp_partition::Partition;
use std::alloc::{AllocError, Global};

/// The vector that has at each partition the coefficient of `v` at its conjugate.
pub fn conjugate_vector(alloc: Global, v: &Vector) -> Result<Vector, AllocError>
    ensures { IfOk result
        (λ w. w ≡ fock_vector v.now.degree (vector_of_conjugates (vector_of v.now.entries))) }
{
    let mut pairs = conjugate_pairs(alloc, v.pairs())?;
    sort_by_partition(&mut pairs);
    Ok(Vector::from_pairs(v.degree(), pairs))
}

/// The grid whose columns and lines are the conjugates of those of `grid`, descending, with the cell of `grid` at the
/// conjugates of its line and its column.
pub fn conjugate_grid(alloc: Global, grid: &Grid) -> Result<Grid, AllocError>
    ensures { IfOk result (λ g. g ≡ grid_of_conjugates grid.now) }
{
    let turned_columns = conjugate_heading(alloc, grid.columns())?;
    let turned_lines = conjugate_heading(alloc, grid.lines())?;
    let cells = moved_cells(alloc, grid, &turned_lines, &turned_columns)?;
    let columns = partitions_of(alloc, &turned_columns)?;
    let lines = partitions_of(alloc, &turned_lines)?;
    Ok(Grid::from_cells(alloc, grid.degree(), columns, lines, cells))
}

/// Conjugated twice, vectors and grids are what they were. It takes and answers nothing: its contract is the law.
pub fn conjugates_law()
    ensures coefficients { (w : VectorValue) (lambda : List ℕ) → IsPartition lambda →
        vector_of_conjugates (vector_of_conjugates w) lambda ≡ w lambda }
    ensures vectors { (v : FockVector) → IsVector v.degree v.entries →
        conjugate_fock_vector (conjugate_fock_vector v) ≡ v }
    ensures grids { (g : GridValue) → IsGrid g → grid_of_conjugates (grid_of_conjugates g) ≡ g }
{}

// The pairs, each at the conjugate of its partition.
fn conjugate_pairs(
    alloc: Global,
    pairs: &[(Partition, Laurent)],
) -> Result<Vec<(Partition, Laurent)>, AllocError>
    ensures { IfOk result (λ turned. turned.items ≡ map conjugate_entry pairs.now) }
{
    let mut turned = Vec::new(alloc);
    for pair in pairs {
        turned.push((pair.0.conjugate(), pair.1.copy(alloc)?))?;
    }
    Ok(turned)
}

// The conjugates of the partitions, descending, each with the place of its own conjugate.
fn conjugate_heading(
    alloc: Global,
    heading: &[Partition],
) -> Result<Vec<(Partition, usize)>, AllocError>
    requires { Ascending (reverse heading.now) }
    ensures { (n : ℕ) → IsHeading n heading.now →
        IfOk result (λ turned. turned.items ≡ map (with_place heading.now) (conjugates n heading.now)) }
{
    let mut turned = placed_conjugates(alloc, heading)?;
    sort_by_partition(&mut turned);
    turned.reverse();
    Ok(turned)
}

// The conjugates of the partitions in the same order, each with the place of its own conjugate.
fn placed_conjugates(
    alloc: Global,
    heading: &[Partition],
) -> Result<Vec<(Partition, usize)>, AllocError>
    requires { Ascending (reverse heading.now) }
    ensures partitions { IfOk result (λ turned. map (λ t. t.0) turned.items ≡ map conjugate heading.now) }
    ensures places { IfOk result (λ turned.
        AllByRecursion (λ t. t.1 ≡ place_of heading.now (conjugate t.0)) turned.items) }
{
    let mut turned = Vec::new(alloc);
    for place in 0..heading.len() {
        turned.push((heading[place].conjugate(), place))?;
    }
    Ok(turned)
}

// Pairs by ascending partitions.
fn sort_by_partition<T>(pairs: &mut Vec<(Partition, T)>)
    ensures permutation { IsPermutation pairs.old.items pairs.new.items }
    ensures sorted { IsSortedByKey (λ t. t.0) order pairs.new.items }
{
    pairs.sort_unstable_by_key(|pair| pair.0);
}

fn partitions_of(alloc: Global, turned: &[(Partition, usize)]) -> Result<Vec<Partition>, AllocError>
    ensures { IfOk result (λ partitions. partitions.items ≡ map (λ t. t.0) turned.now) }
{
    turned.iter().map(|pair| pair.0).collect(alloc)
}

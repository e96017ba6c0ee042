// One line of a matrix, held against its Jantzen sum.
ghost use Rattle.std.specs.Prelude.{◌≡◌, ◌^◌, ◌<◌, ◌≤◌, IfOk, length, nat_eq, position};
ghost use Rattle.std.specs.Cmp.Lexicographic.{pointwise};
ghost use Rattle.std.specs.List.{AllByRecursion};
ghost use Rattle.sp_defs.specs.Partition.{IsPartitionOf};
ghost use Rattle.sp_fock_law.specs.Grid.{cell_of};
ghost use Rattle.sp_module_defs.specs.Cells.{cell_at, place};
ghost use Rattle.sp_matrix.specs.Agreements.{CellIs, HasAll, LineIs, products_at, terms_of};

use crate::CompareFault;
use crate::products::sum_of;
use sp_fock::Grid;
use sp_jantzen::jantzen;
use sp_partition::{Partition, place_in};
use std::alloc::{AllocError, Global};

/// A term of a Jantzen sum: its coefficient, and the place of the line of its partition.
#[derive(Clone, Copy)]
pub(crate) struct Term {
    pub coefficient: i128,
    pub line: usize,
}

// Whether the Jantzen sum of a line is, in each column, the derivative of the line's cell, at v = 1.
pub(crate) fn line_agrees(
    alloc: Global,
    e: u8,
    grid: &Grid,
    limit: u128,
    p: &Partition,
) -> Result<bool, CompareFault>
    requires e_least { 2 ≤ e }
    requires e_most { e ≤ 64 }
    requires least { 1 ≤ limit }
    requires most { limit < 2 ^ 127 }
    requires all { HasAll e grid.now }
    requires line { IsPartitionOf grid.now.degree p.now }
    ensures { LineIs e limit (cell_at grid.now) p.now result }
{
    let terms = terms(alloc, e, grid, p)?;
    let line = place_in(grid.lines(), p).unwrap_or(0);
    let mut agrees = true;
    for column in 0..grid.columns().len() {
        match cell_agrees(alloc, grid, &terms, line, column, limit) {
            Ok(cell) => agrees &= cell,
            Err(fault) => return Err(fault),
        }
    }
    Ok(agrees)
}

// The terms of the Jantzen sum of a line.
fn terms(alloc: Global, e: u8, grid: &Grid, p: &Partition) -> Result<Vec<Term>, AllocError>
    requires e_least { 2 ≤ e }
    requires e_most { e ≤ 64 }
    requires all { HasAll e grid.now }
    requires line { IsPartitionOf grid.now.degree p.now }
    ensures { IfOk result (λ terms. terms.items ≡ terms_of e grid.now p.now) }
{
    let sum = jantzen(alloc, e, p)?;
    let mut terms = Vec::new(alloc);
    for pair in sum.pairs() {
        let line = place_in(grid.lines(), &pair.0).unwrap_or(0);
        terms.push(Term {
            coefficient: pair.1.at_one(),
            line,
        })?;
    }
    Ok(terms)
}

// Whether the products over the terms sum up to the derivative of the cell.
fn cell_agrees(
    alloc: Global,
    grid: &Grid,
    terms: &[Term],
    line: usize,
    column: usize,
    limit: u128,
) -> Result<bool, CompareFault>
    requires least { 1 ≤ limit }
    requires most { limit < 2 ^ 127 }
    requires line { line < length grid.now.lines }
    requires column { column < length grid.now.columns }
    requires terms { AllByRecursion (λ t. t.line < length grid.now.lines) terms.now }
    ensures { CellIs limit (products_at grid.now column terms.now) (cell_of grid.now line column) result }
{
    let products = products(alloc, grid, terms, column)?;
    let Some(sum) = sum_of(&products, limit) else {
        return Err(CompareFault::TooLarge);
    };
    match grid.cell(line, column).slope_at_one(limit) {
        Ok(slope) => Ok(sum == slope),
        Err(_) => Err(CompareFault::TooLarge),
    }
}

// The coefficients of the terms, each with the value at v = 1 of its cell in the column.
fn products(
    alloc: Global,
    grid: &Grid,
    terms: &[Term],
    column: usize,
) -> Result<Vec<(i128, i128)>, AllocError>
    requires column { column < length grid.now.columns }
    requires terms { AllByRecursion (λ t. t.line < length grid.now.lines) terms.now }
    ensures { IfOk result (λ products. products.items ≡ products_at grid.now column terms.now) }
{
    let mut products = Vec::new(alloc);
    for term in terms {
        let value = grid.cell(term.line, column).at_one();
        products.push((term.coefficient, value))?;
    }
    Ok(products)
}

// A matrix held against Jantzen sums.
ghost use Rattle.std.specs.Prelude.{◌≡◌, ◌^◌, ◌<◌, ◌≤◌, true, false, cond, IfOk, OnOk, IsErrOf};
ghost use Rattle.std.specs.Prelude.{None as Nothing, Some as Just};
ghost use Rattle.std.specs.List.{AllByRecursion, AllZip};
ghost use Rattle.sp_module_defs.specs.Cells.{cell_at};
ghost use Rattle.sp_fock_law.specs.Grid.{GridValue};
ghost use Rattle.sp_matrix.specs.Agreements.{agreement_of, HasAll, is_past, IsCalled, LineIs};

use crate::line::line_agrees;
use rayon::prelude::*;
use sp_fock::Grid;
use sp_partition::Partition;
use std::alloc::{AllocError, Global};
use std::thread::Threads;
use thiserror::Error;

/// How far a matrix agrees with Jantzen sums.
#[derive(Clone, Copy, Debug)]
pub struct Agreement {
    /// How many lines agree.
    pub agreeing: usize,
    /// How many lines there are.
    pub total: usize,
    /// The greatest line that doesn't agree.
    pub first: Option<Partition>,
}

/// Why a matrix wasn't compared.
#[derive(Clone, Copy, Debug, Error)]
pub enum CompareFault {
    /// The agreement weight of a line passes the limit.
    #[error("comparison too large")]
    TooLarge,
    /// Memory ran out.
    #[error("out of memory")]
    Memory,
}

impl From<AllocError> for CompareFault {
    ghost use Rattle.std.specs.Prelude.{◌≡◌};
    ghost use Rattle.sp_matrix.specs.declared.comparison.CompareFault.TheVariants.{Memory};

    ghost from_gives = { λ _ fault. fault ≡ Memory };

    fn from(_error: AllocError) -> CompareFault {
        CompareFault::Memory
    }
}

/// Holds each line of a matrix against its Jantzen sum.
///
/// A line agrees where in each column the sum over its terms, of the coefficient times the value at v = 1 of the
/// term's cell, is the derivative of the line's cell at v = 1. `TooLarge` where some line's agreement weight passes
/// the limit.
pub fn compare_alone(
    alloc: Global,
    e: u8,
    grid: &Grid,
    limit: u128,
) -> Result<Agreement, CompareFault>
    requires e_least { 2 ≤ e }
    requires e_most { e ≤ 64 }
    requires least { 1 ≤ limit }
    requires most { limit < 2 ^ 127 }
    requires all { HasAll e grid.now }
    ensures agreement { IfOk result (λ agreement. agreement ≡ agreement_of e (cell_at grid.now) grid.now.lines) }
    ensures within { OnOk result (is_past e limit (cell_at grid.now) grid.now.lines ≡ false) }
    ensures too_large { IsErrOf result CompareFault.TooLarge →
        is_past e limit (cell_at grid.now) grid.now.lines ≡ true }
{
    let answers = answers_alone(alloc, e, grid, limit)?;
    summary(e, grid, limit, &answers)
}

/// Holds each line of a matrix against its Jantzen sum, in as many threads as there are processors.
///
/// The answer is that of `compare_alone`.
pub fn compare(
    rt: &(impl Threads + Sync),
    alloc: Global,
    e: u8,
    grid: &Grid,
    limit: u128,
) -> Result<Agreement, CompareFault>
    requires e_least { 2 ≤ e }
    requires e_most { e ≤ 64 }
    requires least { 1 ≤ limit }
    requires most { limit < 2 ^ 127 }
    requires all { HasAll e grid.now }
    ensures agreement { IfOk result (λ agreement. agreement ≡ agreement_of e (cell_at grid.now) grid.now.lines) }
    ensures within { OnOk result (is_past e limit (cell_at grid.now) grid.now.lines ≡ false) }
    ensures too_large { IsErrOf result CompareFault.TooLarge →
        is_past e limit (cell_at grid.now) grid.now.lines ≡ true }
{
    let answers = answers(rt, alloc, e, grid, limit)?;
    summary(e, grid, limit, &answers)
}

// The answers of the lines, from many threads.
fn answers(
    rt: &(impl Threads + Sync),
    alloc: Global,
    e: u8,
    grid: &Grid,
    limit: u128,
) -> Result<Vec<Result<bool, CompareFault>>, AllocError>
    requires e_least { 2 ≤ e }
    requires e_most { e ≤ 64 }
    requires least { 1 ≤ limit }
    requires most { limit < 2 ^ 127 }
    requires all { HasAll e grid.now }
    ensures { IfOk result (λ answers. AllZip (λ p answer. LineIs e limit (cell_at grid.now) p answer)
        grid.now.lines answers.items) }
{
    grid.lines()
        .par_iter()
        .map(
            |p: &Partition| -> Result<bool, CompareFault>
                requires { IsCalled e limit grid.now p.now }
                ensures { LineIs e limit (cell_at grid.entry.now) p.now result }
            { line_agrees(alloc, e, grid, limit, p) },
        )
        .collect(rt, alloc)
}

// The answers of the lines, one after another.
fn answers_alone(
    alloc: Global,
    e: u8,
    grid: &Grid,
    limit: u128,
) -> Result<Vec<Result<bool, CompareFault>>, AllocError>
    requires e_least { 2 ≤ e }
    requires e_most { e ≤ 64 }
    requires least { 1 ≤ limit }
    requires most { limit < 2 ^ 127 }
    requires all { HasAll e grid.now }
    ensures { IfOk result (λ answers. AllZip (λ p answer. LineIs e limit (cell_at grid.now) p answer)
        grid.now.lines answers.items) }
{
    let mut answers = Vec::new(alloc);
    for p in grid.lines() {
        answers.push(line_agrees(alloc, e, grid, limit, p))?;
    }
    Ok(answers)
}

// What the answers of the lines say together.
fn summary(
    e: u8,
    grid: &Grid,
    limit: u128,
    answers: &[Result<bool, CompareFault>],
) -> Result<Agreement, CompareFault>
    requires { AllZip (λ p answer. LineIs e limit (cell_at grid.now) p answer) grid.now.lines answers.now }
    ensures agreement { IfOk result (λ agreement. agreement ≡ agreement_of e (cell_at grid.now) grid.now.lines) }
    ensures within { OnOk result (is_past e limit (cell_at grid.now) grid.now.lines ≡ false) }
    ensures too_large { IsErrOf result CompareFault.TooLarge →
        is_past e limit (cell_at grid.now) grid.now.lines ≡ true }
{
    let lines = grid.lines();
    let mut agreeing = 0;
    let mut first = None;
    for line in 0..lines.len() {
        match answers[line] {
            Ok(agrees) => {
                agreeing += usize::from(agrees);
                first = first.or(unless(agrees, &lines[line]));
            }
            Err(fault) => return Err(fault),
        }
    }
    Ok(Agreement {
        agreeing,
        total: lines.len(),
        first,
    })
}

// The partition, unless its line agrees.
fn unless(agrees: bool, p: &Partition) -> Option<Partition>
    ensures { result ≡ cond agrees Nothing (Just p.now) }
{
    if agrees { None } else { Some(*p) }
}

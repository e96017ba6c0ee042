// The terms of a Jantzen sum.
ghost use Rattle.std.specs.Prelude.{◌≡◌, ◌+◌, ◌<◌, ◌≤◌, [], ◌≤ℤ◌, pos, negsuc, IfOk, ◌++◌, OnOk};
ghost use Rattle.std.specs.Prelude.{length, unsigned_abs};
ghost use Rattle.std.specs.List.{AllByRecursion, cons_option};
ghost use Rattle.sp_defs.specs.Partition.{degree as degree_of, IsPartitionOf};
ghost use Rattle.sp_module_defs.specs.Jantzen.{valuation as valuation_of, step_value as step_value_of};
ghost use Rattle.sp_module_defs.specs.Jantzen.{term as term_of, terms_of_pair, terms_of_bead, jantzen_terms};
ghost use Rattle.sp_jantzen.specs.Beads.{AreBeads, IsStep};

use crate::numbers::{descending, is_distinct, moved, signed};
use sp_abacus::{beta, shown};
use sp_partition::Partition;
use std::alloc::{AllocError, Global};

// A partition and its coefficient.
pub(crate) type Term = (Partition, i8);

// 1 where e divides x, and 0 otherwise.
fn valuation(e: u8, x: u8) -> i8
    requires { 2 ≤ e }
    ensures value { result ≡ valuation_of e x }
    ensures least { pos 0 ≤ℤ result }
    ensures most { result ≤ℤ pos 1 }
{
    if x % e == 0 { 1 } else { 0 }
}

// The difference of the valuations of the distance after the step and of the step.
fn step_value(e: u8, numbers: &[u8], to: usize, from: usize, steps: u8) -> i8
    requires least { 2 ≤ e }
    requires beads { AreBeads numbers.now }
    requires step { IsStep numbers.now to from steps }
    ensures value { result ≡ step_value_of e numbers.now to from steps }
    ensures least { negsuc 0 ≤ℤ result }
    ensures most { result ≤ℤ pos 1 }
{
    valuation(e, numbers[to] - numbers[from] + steps) - valuation(e, steps)
}

// The term of a step, where no two beads meet and the difference isn't 0.
fn term(e: u8, numbers: &[u8], to: usize, from: usize, steps: u8) -> Option<Term>
    requires least { 2 ≤ e }
    requires beads { AreBeads numbers.now }
    requires step { IsStep numbers.now to from steps }
    ensures { cons_option result [] ≡ term_of e numbers.now to from steps }
{
    let value = step_value(e, numbers, to, from, steps);
    if value == 0 {
        return None;
    }
    let after = moved(numbers, to, from, steps);
    if !is_distinct(after.as_slice()) {
        return None;
    }
    let partition = shown(descending(after.as_slice()).as_slice());
    Some((partition, signed(after.as_slice(), value)))
}

// Appends the term, if there is one.
fn push_found(terms: &mut Vec<Term>, found: Option<Term>) -> Result<(), AllocError>
    ensures { OnOk result (terms.new.items ≡ terms.old.items ++ cons_option found []) }
{
    if let Some(term) = found {
        terms.push(term)?;
    }
    Ok(())
}

// Appends the terms of the steps that the bead at place `from` can take for that at place `to`.
fn push_pair(
    terms: &mut Vec<Term>,
    e: u8,
    numbers: &[u8],
    to: usize,
    from: usize,
) -> Result<(), AllocError>
    requires least { 2 ≤ e }
    requires beads { AreBeads numbers.now }
    requires earlier { to < from }
    requires within { from < length numbers.now }
    ensures { OnOk result (terms.new.items ≡ terms.old.items ++ terms_of_pair e numbers.now from to) }
{
    for steps in 1..numbers[from] + 1 {
        push_found(terms, term(e, numbers, to, from, steps))?;
    }
    Ok(())
}

// Appends the terms of the bead at place `from` and all those before it.
fn push_bead(terms: &mut Vec<Term>, e: u8, numbers: &[u8], from: usize) -> Result<(), AllocError>
    requires least { 2 ≤ e }
    requires beads { AreBeads numbers.now }
    requires within { from < length numbers.now }
    ensures { OnOk result (terms.new.items ≡ terms.old.items ++ terms_of_bead e numbers.now from) }
{
    for to in 0..from {
        push_pair(terms, e, numbers, to, from)?;
    }
    Ok(())
}

// All terms of the Jantzen sum.
pub(crate) fn terms(alloc: Global, e: u8, p: &Partition) -> Result<Vec<Term>, AllocError>
    requires e_least { 2 ≤ e }
    requires e_most { e ≤ 64 }
    ensures terms { IfOk result (λ terms. terms.items ≡ jantzen_terms e p.now) }
    ensures degrees { IfOk result (λ terms. AllByRecursion (λ t. IsPartitionOf (degree_of p.now) t.0) terms.items) }
    ensures units { IfOk result (λ terms. AllByRecursion (λ t. unsigned_abs t.1 ≤ 1) terms.items) }
{
    let numbers = beta(e, p);
    let mut terms = Vec::new(alloc);
    for from in 0..numbers.len() {
        push_bead(&mut terms, e, numbers.as_slice(), from)?;
    }
    Ok(terms)
}

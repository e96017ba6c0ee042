// Moves in order of the ranks that they lead to, taken apart into runs of one rank each, and summed.
ghost use Rattle.std.specs.Prelude.{◌≡◌, ℕ, ◌+◌, ◌^◌, ◌<◌, ◌≤◌, ◌↔◌, [], ◌∷◌, ◌++◌, IsTrue, IfOk, OnOk, IsErrOf};
ghost use Rattle.std.specs.Prelude.{cond, nat_eq, nat_lt, sum_by, length};
ghost use Rattle.std.specs.List.{AllByRecursion, prefix_len};
ghost use Rattle.std.specs.List.Sorted.{IsSortedByKey};
ghost use Rattle.std.specs.Ordering.{nat_cmp};
ghost use Rattle.sp_defs.specs.Laurent.{sum_over};
ghost use Rattle.sp_defs.specs.Power.{greatest};
ghost use Rattle.sp_laurent.specs.Held.{IsHeld};
ghost use Rattle.sp_power_law.specs.Runs.{runs, sizes_of, sums_of};
ghost use Rattle.sp_ranks.specs.Arrivals.{arrivals_at, share_at, size_at, IsBroughtBy};

use crate::walk::Arrival;
use crate::{Polynomials, RankVector};
use sp_laurent::{Term, add_shifted, size_of};
use sp_partition::DEGREE_LIMIT;
use sp_power::PowerFault;
use std::alloc::{AllocError, Global};

/// The vector of degree n with the sum at each rank that the moves lead to, where it isn't 0. Each move brings the
/// polynomial of its source, times the power of its exponent.
pub(crate) fn sums(
    alloc: Global,
    n: u8,
    v: &RankVector,
    arrivals: &[Arrival],
    limit: u128,
) -> Result<RankVector, PowerFault>
    requires degree { n ≤ DEGREE_LIMIT }
    requires least { 1 ≤ limit }
    requires most { limit < 2 ^ 127 }
    requires brought { AllByRecursion (IsBroughtBy n v.now.entries) arrivals.now }
    requires sorted { IsSortedByKey (λ t. t.rank) nat_cmp arrivals.now }
    ensures degree { IfOk result (λ w. w.degree ≡ n) }
    ensures sums { IfOk result (λ w. w.entries ≡ sums_of v.now.entries (runs (arrivals_at n arrivals.now))) }
    ensures fits { OnOk result (greatest (sizes_of v.now.entries (runs (arrivals_at n arrivals.now))) ≤ limit) }
    ensures too_large { IsErrOf result PowerFault.TooLarge
        → limit < greatest (sizes_of v.now.entries (runs (arrivals_at n arrivals.now))) }
{
    let mut ranks = Vec::with_capacity(alloc, arrivals.len())?;
    let mut polynomials = Polynomials::with_capacity(alloc, arrivals.len(), arrivals.len())?;
    let mut sum = Vec::new(alloc);
    let mut rest = arrivals;
    while let [first, ..] = rest {
        let (run, later) = rest.split_at(run_length(rest, first.rank));
        if !run_fits(v, run, limit) {
            return Err(PowerFault::TooLarge);
        }
        sum.clear();
        add_run(&mut sum, v, run)?;
        push_nonzero(&mut ranks, &mut polynomials, first.rank, &sum)?;
        rest = later;
    }
    Ok(RankVector::over(n, ranks, polynomials))
}

// Adds a sum that isn't 0.
fn push_nonzero(
    ranks: &mut Vec<u16>,
    polynomials: &mut Polynomials,
    rank: u16,
    sum: &[Term],
) -> Result<(), AllocError>
    requires { IsHeld sum.now }
    ensures ranks { OnOk result (ranks.new.items ≡
        cond (nat_lt 0 (length sum.now)) (ranks.old.items ++ (rank ∷ [])) ranks.old.items) }
    ensures polynomials { OnOk result (polynomials.new ≡
        cond (nat_lt 0 (length sum.now)) (polynomials.old ++ (sum.now ∷ [])) polynomials.old) }
{
    if !sum.is_empty() {
        ranks.push(rank)?;
        polynomials.push(sum)?;
    }
    Ok(())
}

// How many moves at the front lead to this rank.
fn run_length(arrivals: &[Arrival], rank: u16) -> usize
    ensures { result ≡ prefix_len (λ t. nat_eq t.rank rank) arrivals.now }
{
    for (count, arrival) in arrivals.iter().enumerate() {
        if arrival.rank != rank {
            return count;
        }
    }
    arrivals.len()
}

// Whether the sizes of what a run brings sum up to no more than the limit.
fn run_fits(v: &RankVector, run: &[Arrival], limit: u128) -> bool
    requires { AllByRecursion (λ t. t.source < length v.now.entries) run.now }
    ensures { IsTrue result ↔ (sum_by (size_at v.now.entries) run.now ≤ limit) }
{
    let mut left = limit;
    for arrival in run {
        match left.checked_sub(size_of(v.terms(arrival.source as usize))) {
            Some(rest) => left = rest,
            None => return false,
        }
    }
    true
}

// Adds to no terms what a run brings.
fn add_run(sum: &mut Vec<Term>, v: &RankVector, run: &[Arrival]) -> Result<(), AllocError>
    requires empty { sum.old.items ≡ [] }
    requires brought { (n : ℕ) × AllByRecursion (IsBroughtBy n v.now.entries) run.now }
    requires fits { sum_by (size_at v.now.entries) run.now < 2 ^ 127 }
    ensures sum { OnOk result (sum.new.items ≡ sum_over run.now (share_at v.now.entries)) }
    ensures held { OnOk result (IsHeld sum.new.items) }
{
    for arrival in run {
        add_shifted(
            sum,
            i32::from(arrival.exponent),
            v.terms(arrival.source as usize),
        )?;
    }
    Ok(())
}

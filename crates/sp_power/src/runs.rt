// Moves in order, taken apart into runs of one partition each, and summed.
ghost use Rattle.std.specs.Prelude.{◌≡◌, ◌+◌, ◌^◌, ◌<◌, ◌≤◌, ◌↔◌, [], ◌∷◌, ◌++◌, IsTrue, IfOk, OnOk, IsErrOf};
ghost use Rattle.std.specs.Prelude.{sum_by, nat_lt, length, filter};
ghost use Rattle.std.specs.List.{AllByRecursion, prefix_len};
ghost use Rattle.sp_defs.specs.Laurent.{plus, sum_over, size};
ghost use Rattle.sp_defs.specs.Power.{greatest};
ghost use Rattle.sp_fock.specs.Held.{ArePairs};
ghost use Rattle.sp_laurent.specs.Held.{IsHeld};
ghost use Rattle.sp_power_law.specs.Runs.{is_at, runs, share_of, size_of, sums_of, sizes_of};
ghost use Rattle.sp_power.specs.Arrivals.{IsBrought};

use crate::PowerFault;
use crate::moves::Arrival;
use sp_laurent::Laurent;
use sp_partition::Partition;
use std::alloc::{AllocError, Global};

/// The sum at each partition that the moves lead to, where it isn't 0. Each move brings the polynomial of its pair,
/// times the power of its exponent.
pub(crate) fn sums(
    alloc: Global,
    pairs: &[(Partition, Laurent)],
    arrivals: &[Arrival],
    limit: u128,
) -> Result<Vec<(Partition, Laurent)>, PowerFault>
    requires least { 1 ≤ limit }
    requires most { limit < 2 ^ 127 }
    requires brought { AllByRecursion (IsBrought pairs.now) arrivals.now }
    ensures sums { IfOk result (λ sums. sums.items ≡ sums_of pairs.now (runs arrivals.now)) }
    ensures held { IfOk result (λ sums. ArePairs sums.items) }
    ensures fits { OnOk result (greatest (sizes_of pairs.now (runs arrivals.now)) ≤ limit) }
    ensures too_large { IsErrOf result PowerFault.TooLarge
        → limit < greatest (sizes_of pairs.now (runs arrivals.now)) }
{
    let mut sums = Vec::new(alloc);
    let mut rest = arrivals;
    while let [first, ..] = rest {
        let (run, later) = rest.split_at(run_length(rest, &first.partition));
        if !run_fits(pairs, run, limit) {
            return Err(PowerFault::TooLarge);
        }
        let sum = run_sum(alloc, pairs, run)?;
        push_nonzero(&mut sums, first.partition, sum)?;
        rest = later;
    }
    Ok(sums)
}

// Adds a sum that isn't 0.
fn push_nonzero(
    sums: &mut Vec<(Partition, Laurent)>,
    partition: Partition,
    sum: Laurent,
) -> Result<(), AllocError>
    ensures sums { OnOk result
        (sums.new.items ≡ sums.old.items ++ filter (λ t. nat_lt 0 (length t.1)) ((partition, sum) ∷ [])) }
    ensures held { IsHeld sum }
{
    if !sum.terms().is_empty() {
        sums.push((partition, sum))?;
    }
    Ok(())
}

// How many moves at the front lead to this partition.
fn run_length(arrivals: &[Arrival], partition: &Partition) -> usize
    ensures value { result ≡ prefix_len (is_at partition.now) arrivals.now }
{
    for (count, arrival) in arrivals.iter().enumerate() {
        if arrival.partition != *partition {
            return count;
        }
    }
    arrivals.len()
}

// Whether the sizes of what a run brings sum up to no more than the limit.
fn run_fits(pairs: &[(Partition, Laurent)], run: &[Arrival], limit: u128) -> bool
    requires { AllByRecursion (IsBrought pairs.now) run.now }
    ensures { IsTrue result ↔ (sum_by (size_of pairs.now) run.now ≤ limit) }
{
    let mut left = limit;
    for arrival in run {
        match left.checked_sub(pairs[arrival.source].1.size()) {
            Some(rest) => left = rest,
            None => return false,
        }
    }
    true
}

// The sum over a run: the first share is a copy with its powers shifted, and the others are added to it in place.
fn run_sum(
    alloc: Global,
    pairs: &[(Partition, Laurent)],
    run: &[Arrival],
) -> Result<Laurent, AllocError>
    requires brought { AllByRecursion (IsBrought pairs.now) run.now }
    requires fits { sum_by (size_of pairs.now) run.now < 2 ^ 127 }
    ensures { IfOk result (λ sum. sum ≡ sum_over run.now (share_of pairs.now)) }
{
    let [first, others @ ..] = run else {
        return Ok(Laurent::zero(alloc));
    };
    let mut sum = share(alloc, pairs, first)?;
    for arrival in others {
        sum = plus_share(sum, pairs, arrival)?;
    }
    Ok(sum)
}

// What one move brings.
fn share(
    alloc: Global,
    pairs: &[(Partition, Laurent)],
    arrival: &Arrival,
) -> Result<Laurent, AllocError>
    requires { IsBrought pairs.now arrival.now }
    ensures { IfOk result (λ share. share ≡ share_of pairs.now arrival.now) }
{
    pairs[arrival.source].1.shifted(alloc, arrival.exponent)
}

// A sum and what one move more brings.
fn plus_share(
    sum: Laurent,
    pairs: &[(Partition, Laurent)],
    arrival: &Arrival,
) -> Result<Laurent, AllocError>
    requires brought { IsBrought pairs.now arrival.now }
    requires fits { size sum + size_of pairs.now arrival.now < 2 ^ 127 }
    ensures { IfOk result (λ more. more ≡ plus sum (share_of pairs.now arrival.now)) }
{
    sum.plus_shifted_within(&pairs[arrival.source].1, arrival.exponent)
}

// The restriction of a vector at each of some partitions.
ghost use Rattle.std.specs.Prelude.{◌≡◌, ◌+◌, ◌^◌, ◌<◌, ◌≤◌, map, length, IfOk, OnOk, IsErrOf, unsigned_abs};
ghost use Rattle.std.specs.Prelude.{ℕ, ℤ, pos, ◌+ℤ◌, ◌-ℤ◌};
ghost use Rattle.std.specs.List.{AllByRecursion};
ghost use Rattle.sp_defs.specs.Laurent.{IsLaurent, plus, times, power as power_of, size};
ghost use Rattle.sp_defs.specs.Power.{vector_of};
ghost use Rattle.sp_defs.specs.Within.{PowersWithin};
ghost use Rattle.sp_fock.specs.Held.{ArePairs};
ghost use Rattle.sp_fock.specs.Walk.{shown};
ghost use Rattle.sp_nodes.specs.Marks.{letter, mark_of};
ghost use Rattle.sp_power.specs.Arrivals.{half_power_limit, AllWithin};
ghost use Rattle.sp_sl2_law.specs.Restriction.{restriction, restricted_size};
ghost use Rattle.sp_sl2_law.specs.Marks.{taken_through, size_through, share_at, passed as passed_by, CanAdd};
ghost use Rattle.sp_sl2.specs.Targets.{HasRoom, restricted_entries};

use crate::multiples::{corner_difference, push_nonzero};
use sp_fock::Vector;
use sp_laurent::Laurent;
use sp_nodes::{Corner, Mark, marks};
use sp_partition::Partition;
use sp_power::PowerFault;
use std::alloc::{AllocError, Global};

/// The restriction of a vector at each of these partitions, where it isn't 0.
pub(crate) fn sums(
    alloc: Global,
    e: u8,
    i: u8,
    v: &Vector,
    targets: &[Partition],
    limit: u128,
) -> Result<Vec<(Partition, Laurent)>, PowerFault>
    requires e_least { 2 ≤ e }
    requires e_most { e ≤ 64 }
    requires below { i < e }
    requires powers { AllWithin half_power_limit v.now.entries }
    requires least { 1 ≤ limit }
    requires most { limit < 2 ^ 127 }
    requires room { AllByRecursion HasRoom targets.now }
    ensures sums { IfOk result
        (λ sums. sums.items ≡ restricted_entries e i (vector_of v.now.entries) targets.now) }
    ensures held { IfOk result (λ sums. ArePairs sums.items) }
    ensures fits { OnOk result
        (AllByRecursion (λ mu. restricted_size e i (vector_of v.now.entries) mu ≤ limit) targets.now) }
    ensures too_large { IsErrOf result PowerFault.TooLarge
        → ¬ AllByRecursion (λ mu. restricted_size e i (vector_of v.now.entries) mu ≤ limit) targets.now }
{
    let mut sums = Vec::new(alloc);
    for target in targets {
        let sum = sum_at(alloc, e, i, v, target, limit)?;
        push_nonzero(&mut sums, *target, sum)?;
    }
    Ok(sums)
}

// The restriction of a vector at one partition.
fn sum_at(
    alloc: Global,
    e: u8,
    i: u8,
    v: &Vector,
    at: &Partition,
    limit: u128,
) -> Result<Laurent, PowerFault>
    requires e_least { 2 ≤ e }
    requires e_most { e ≤ 64 }
    requires below { i < e }
    requires powers { AllWithin half_power_limit v.now.entries }
    requires least { 1 ≤ limit }
    requires most { limit < 2 ^ 127 }
    requires room { HasRoom at.now }
    ensures sum { IfOk result (λ sum. sum ≡ restriction e i (vector_of v.now.entries) at.now) }
    ensures fits { OnOk result (restricted_size e i (vector_of v.now.entries) at.now ≤ limit) }
    ensures too_large { IsErrOf result PowerFault.TooLarge
        → limit < restricted_size e i (vector_of v.now.entries) at.now }
{
    let marks = marks(e, i, at);
    sum_through(
        alloc,
        v,
        at,
        &marks,
        negative(corner_difference(e, i, at)),
        limit,
    )
}

// A small number, negated.
fn negative(number: i32) -> i32
    requires { unsigned_abs number ≤ 33 }
    ensures value { result ≡ pos 0 -ℤ number }
    ensures near { unsigned_abs result ≤ 33 }
{
    -number
}

// The sum of what each mark brings, times the power of the difference once it is passed.
fn sum_through(
    alloc: Global,
    v: &Vector,
    at: &Partition,
    marks: &[Mark],
    start: i32,
    limit: u128,
) -> Result<Laurent, PowerFault>
    requires powers { AllWithin half_power_limit v.now.entries }
    requires least { 1 ≤ limit }
    requires most { limit < 2 ^ 127 }
    requires room { HasRoom at.now }
    requires can { AllByRecursion (CanAdd at.now) (map mark_of marks.now) }
    requires near { unsigned_abs start + length marks.now ≤ 1000 }
    ensures sum { IfOk result
        (λ sum. sum ≡ taken_through (vector_of v.now.entries) at.now (map mark_of marks.now) start) }
    ensures fits { OnOk result (size_through (vector_of v.now.entries) at.now (map mark_of marks.now) ≤ limit) }
    ensures too_large { IsErrOf result PowerFault.TooLarge
        → limit < size_through (vector_of v.now.entries) at.now (map mark_of marks.now) }
{
    let mut sum = Laurent::zero(alloc);
    // what the marks still to come may bring
    let mut left = limit;
    // the removable nodes from here on minus the addable ones
    let mut difference = start;
    for mark in marks {
        difference = passed(difference, mark.corner);
        let share = share(v, at, *mark);
        left = rest_of(left, share)?;
        sum = plus_share(sum, share, difference)?;
    }
    Ok(sum)
}

// The difference once a node is passed.
fn passed(difference: i32, corner: Corner) -> i32
    requires { unsigned_abs difference ≤ 2000 }
    ensures value { (x : ℕ × ℕ) → result ≡ passed_by (letter corner, x) difference }
    ensures near { unsigned_abs result ≤ unsigned_abs difference + 1 }
{
    match corner {
        Corner::Addable => difference + 1,
        Corner::Removable => difference - 1,
    }
}

// What the vector has at the partition with the node of this mark more, if the node can be added.
fn share<'a>(v: &'a Vector, at: &Partition, mark: Mark) -> Option<&'a Laurent>
    requires powers { AllWithin half_power_limit v.now.entries }
    requires room { HasRoom at.now }
    requires can { CanAdd at.now (mark_of mark) }
    ensures value { shown result ≡ share_at (vector_of v.now.entries) at.now (mark_of mark) }
    ensures powers { PowersWithin half_power_limit (shown result) }
{
    match mark.corner {
        Corner::Addable => v.coefficient(&at.add_node(mark.node.row).unwrap()),
        Corner::Removable => None,
    }
}

// What is left of a limit without the size of a polynomial.
fn rest_of(left: u128, share: Option<&Laurent>) -> Result<u128, PowerFault>
    ensures ok { IfOk result (λ rest. rest + size (shown share.entry) ≡ left) }
    ensures too_large { IsErrOf result PowerFault.TooLarge → left < size (shown share.entry) }
{
    match share {
        Some(polynomial) => left
            .checked_sub(polynomial.size())
            .ok_or(PowerFault::TooLarge),
        None => Ok(left),
    }
}

// A sum, and a polynomial times a power of v.
fn plus_share(sum: Laurent, share: Option<&Laurent>, power: i32) -> Result<Laurent, AllocError>
    requires laurent { IsLaurent sum }
    requires near { unsigned_abs power ≤ 2000 }
    requires powers { PowersWithin half_power_limit (shown share) }
    requires fits { size sum + size (shown share) < 2 ^ 127 }
    ensures { IfOk result (λ more. more ≡ plus sum (times (power_of power) (shown share.entry))) }
{
    match share {
        Some(polynomial) => sum.plus_shifted_within(polynomial, power),
        None => Ok(sum),
    }
}

// Multiples of polynomials by balanced integers.
ghost use Rattle.std.specs.Prelude.{◌≡◌, ◌+◌, ◌*◌, ◌^◌, ◌<◌, ◌≤◌, ◌++◌, [], ◌∷◌, IfOk, OnOk, IsErrOf};
ghost use Rattle.std.specs.Prelude.{filter, nat_lt, length, unsigned_abs, pos, ◌-ℤ◌};
ghost use Rattle.sp_defs.specs.Laurent.{times, size};
ghost use Rattle.sp_defs.specs.Within.{PowersWithin};
ghost use Rattle.sp_laurent.specs.Held.{IsHeld};
ghost use Rattle.sp_power.specs.Arrivals.{half_power_limit};
ghost use Rattle.sp_sl2_law.specs.Balanced.{balanced, balanced_natural, corner_difference as difference_of};

use sp_laurent::{Laurent, without_product};
use sp_nodes::{addable, removable};
use sp_partition::Partition;
use sp_power::PowerFault;
use std::alloc::{AllocError, Global};

/// The number of addable nodes of residue `i` minus the number of removable ones.
pub(crate) fn corner_difference(e: u8, i: u8, p: &Partition) -> i32
    requires e_least { 2 ≤ e }
    requires e_most { e ≤ 64 }
    requires below { i < e }
    ensures value { result ≡ difference_of e i p.now }
    ensures near { unsigned_abs result ≤ 33 }
{
    difference(addable(e, i, p).len(), removable(e, i, p).len())
}

// The difference of two small numbers.
fn difference(first: usize, second: usize) -> i32
    requires first { first ≤ 33 }
    requires second { second ≤ 33 }
    ensures value { result ≡ pos first -ℤ pos second }
    ensures near { unsigned_abs result ≤ 33 }
{
    first as i32 - second as i32
}

/// Adds a polynomial that isn't 0.
pub(crate) fn push_nonzero(
    pairs: &mut Vec<(Partition, Laurent)>,
    partition: Partition,
    polynomial: Laurent,
) -> Result<(), AllocError>
    ensures pairs { OnOk result
        (pairs.new.items ≡ pairs.old.items ++ filter (λ t. nat_lt 0 (length t.1)) ((partition, polynomial) ∷ [])) }
    ensures held { IsHeld polynomial }
{
    if !polynomial.terms().is_empty() {
        pairs.push((partition, polynomial))?;
    }
    Ok(())
}

/// A polynomial times the balanced integer of `k`.
pub(crate) fn balanced_multiple(
    alloc: Global,
    k: i32,
    p: &Laurent,
    limit: u128,
) -> Result<Laurent, PowerFault>
    requires near { unsigned_abs k ≤ 33 }
    requires powers { PowersWithin half_power_limit p.now }
    requires least { 1 ≤ limit }
    requires most { limit < 2 ^ 127 }
    ensures ok { IfOk result (λ q. q ≡ times (balanced k) p.now) }
    ensures fits { OnOk result (unsigned_abs k * size p.now ≤ limit) }
    ensures too_large { IsErrOf result PowerFault.TooLarge → limit < unsigned_abs k * size p.now }
{
    let count = k.unsigned_abs();
    if without_product(limit, count as u128, p.size()).is_none() {
        return Err(PowerFault::TooLarge);
    }
    let multiple = natural_multiple(alloc, count, p)?;
    if k < 0 {
        Ok(multiple.negate(alloc)?)
    } else {
        Ok(multiple)
    }
}

// A polynomial times the balanced integer of a natural number.
fn natural_multiple(alloc: Global, k: u32, p: &Laurent) -> Result<Laurent, AllocError>
    requires near { k ≤ 33 }
    requires powers { PowersWithin half_power_limit p.now }
    requires fits { k * size p.now < 2 ^ 127 }
    ensures { IfOk result (λ q. q ≡ times (balanced_natural k) p.now) }
{
    let mut multiple = Laurent::zero(alloc);
    for j in 0..k {
        multiple = multiple.plus_shifted_within(p, balanced_power(k, j))?;
    }
    Ok(multiple)
}

// The j-th power of the balanced integer of k, from the least.
fn balanced_power(k: u32, j: u32) -> i32
    requires near { k ≤ 33 }
    requires below { j < k }
    ensures value { result ≡ pos (2 * j + 1) -ℤ pos k }
    ensures near { unsigned_abs result ≤ 33 }
{
    2 * j as i32 + 1 - k as i32
}

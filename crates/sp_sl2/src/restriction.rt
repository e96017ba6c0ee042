// The restriction of a vector.
ghost use Rattle.std.specs.Prelude.{◌≡◌, ℕ, ◌+◌, ◌-◌, ◌^◌, ◌<◌, ◌≤◌, IfOk, OnOk, IsErrOf};
ghost use Rattle.sp_defs.specs.Power.{fock_vector, vector_of, IsVector};
ghost use Rattle.sp_power.specs.Arrivals.{half_power_limit, AllWithin};
ghost use Rattle.sp_sl2_law.specs.Restriction.{restriction, restriction_weight};

use crate::shares::sums;
use crate::targets::targets;
use sp_fock::Vector;
use sp_power::PowerFault;
use std::alloc::Global;

/// The restriction `e_i` of a vector: from each partition, one node of residue `i` is removed in all ways, with a power
/// of v that counts the addable and removable `i`-nodes below it. It has one degree less, and is 0 of degree 0 for a
/// vector of degree 0. (Lascoux, Leclerc and Thibon, 1996)
///
/// `TooLarge` only where, at some partition, the sizes of the polynomials that reach it sum up to more than the limit,
/// and a result only where they don't. `e` is from 2 to 64, and the powers of the vector are within half of the limit
/// on powers. Those of the result lie at most one more than the degree further from 0.
pub fn restrict(alloc: Global, e: u8, i: u8, v: &Vector, limit: u128) -> Result<Vector, PowerFault>
    requires e_least { 2 ≤ e }
    requires e_most { e ≤ 64 }
    requires below { i < e }
    requires powers { AllWithin half_power_limit v.now.entries }
    requires least { 1 ≤ limit }
    requires most { limit < 2 ^ 127 }
    ensures ok { IfOk result (λ w. w ≡ fock_vector (v.now.degree - 1) (restriction e i (vector_of v.now.entries))) }
    ensures vector { IfOk result (λ w. IsVector (v.now.degree - 1) w.entries) }
    ensures fits { OnOk result (restriction_weight e i v.now.degree (vector_of v.now.entries) ≤ limit) }
    ensures too_large { IsErrOf result PowerFault.TooLarge
        → limit < restriction_weight e i v.now.degree (vector_of v.now.entries) }
    ensures powers { IfOk result
        (λ w. (d : ℕ) → AllWithin d v.now.entries → AllWithin (v.now.degree + 1 + d) w.entries) }
{
    let targets = targets(alloc, e, i, v)?;
    let sums = sums(alloc, e, i, v, &targets, limit)?;
    Ok(Vector::from_pairs(v.degree().saturating_sub(1), sums))
}

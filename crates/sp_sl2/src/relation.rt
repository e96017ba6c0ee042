// The commutator of restriction and induction.
ghost use Rattle.std.specs.Prelude.{◌≡◌, ◌*◌, ◌^◌, ◌<◌, ◌≤◌, [], cond, nat_eq, map, filter, nat_lt, length};
ghost use Rattle.std.specs.Prelude.{unsigned_abs};
ghost use Rattle.std.specs.Prelude.{IfOk, OnOk, IsErrOf};
ghost use Rattle.std.specs.List.{AllByRecursion};
ghost use Rattle.sp_defs.specs.Laurent.{times, size};
ghost use Rattle.sp_defs.specs.Power.{fock_vector, vector_of};
ghost use Rattle.sp_fock.specs.Held.{ArePairs};
ghost use Rattle.sp_power.specs.Arrivals.{half_power_limit, AllWithin};
ghost use Rattle.sp_sl2_law.specs.Balanced.{balanced, corner_difference as difference_of};
ghost use Rattle.sp_sl2_law.specs.Commutator.{commutator as commutator_of, corner_multiple, commutator_weight};
ghost use Rattle.sp_sl2.specs.Multiples.{multiple_entries, MultipleFits};

use crate::multiples::{balanced_multiple, corner_difference, push_nonzero};
use sp_fock::Vector;
use sp_laurent::Laurent;
use sp_partition::Partition;
use sp_power::PowerFault;
use std::alloc::Global;

/// The commutator `e_i f_j v - f_j e_i v` of restriction and induction of one node. It is 0 where `i` and `j` differ.
/// Where they are equal, each polynomial of the vector is multiplied by the balanced integer of the number of addable
/// minus the number of removable `i`-nodes of its partition. (Lascoux, Leclerc and Thibon, 1996)
///
/// `TooLarge` only where `i` and `j` are equal and, at some partition, that difference times the size of the polynomial
/// passes the limit in absolute value, and a result only where it doesn't. `e` is from 2 to 64, and the powers of the
/// vector are within half of the limit on powers.
pub fn commutator(
    alloc: Global,
    e: u8,
    i: u8,
    j: u8,
    v: &Vector,
    limit: u128,
) -> Result<Vector, PowerFault>
    requires e_least { 2 ≤ e }
    requires e_most { e ≤ 64 }
    requires first_below { i < e }
    requires second_below { j < e }
    requires powers { AllWithin half_power_limit v.now.entries }
    requires least { 1 ≤ limit }
    requires most { limit < 2 ^ 127 }
    ensures ok { IfOk result (λ w. w ≡ fock_vector v.now.degree (commutator_of e i j (vector_of v.now.entries))) }
    ensures closed { IfOk result (λ w. w ≡ fock_vector v.now.degree
        (λ lambda. cond (nat_eq i j) (corner_multiple e i (vector_of v.now.entries) lambda) [])) }
    ensures fits { OnOk result (commutator_weight e i j v.now.degree (vector_of v.now.entries) ≤ limit) }
    ensures too_large { IsErrOf result PowerFault.TooLarge
        → limit < commutator_weight e i j v.now.degree (vector_of v.now.entries) }
{
    if i != j {
        return Ok(Vector::zero(alloc, v.degree()));
    }
    let multiples = multiples(alloc, e, i, v.pairs(), limit)?;
    Ok(Vector::from_pairs(v.degree(), multiples))
}

// Each polynomial times the balanced integer of its partition, where that isn't 0.
fn multiples(
    alloc: Global,
    e: u8,
    i: u8,
    pairs: &[(Partition, Laurent)],
    limit: u128,
) -> Result<Vec<(Partition, Laurent)>, PowerFault>
    requires e_least { 2 ≤ e }
    requires e_most { e ≤ 64 }
    requires below { i < e }
    requires powers { AllWithin half_power_limit pairs.now }
    requires least { 1 ≤ limit }
    requires most { limit < 2 ^ 127 }
    requires held { ArePairs pairs.now }
    ensures multiples { IfOk result (λ multiples. multiples.items ≡ multiple_entries e i pairs.now) }
    ensures held { IfOk result (λ multiples. ArePairs multiples.items) }
    ensures fits { OnOk result (AllByRecursion (MultipleFits e i limit) pairs.now) }
    ensures too_large { IsErrOf result PowerFault.TooLarge → ¬ AllByRecursion (MultipleFits e i limit) pairs.now }
{
    let mut multiples = Vec::new(alloc);
    for pair in pairs {
        let k = corner_difference(e, i, &pair.0);
        let multiple = balanced_multiple(alloc, k, &pair.1, limit)?;
        push_nonzero(&mut multiples, pair.0, multiple)?;
    }
    Ok(multiples)
}

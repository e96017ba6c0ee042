// The divided power of a vector.
ghost use Rattle.std.specs.Prelude.{◌≡◌, ℕ, ◌+◌, ◌*◌, ◌^◌, ◌<◌, ◌≤◌, IfOk, OnOk, IsErrOf};
ghost use Rattle.std.specs.List.Sorted.{IsPermutation, IsSortedByKey};
ghost use Rattle.sp_defs.specs.Partition.{order};
ghost use Rattle.sp_defs.specs.Power.{fock_vector, vector_of, divided_power, induction_weight};
ghost use Rattle.sp_power.specs.Arrivals.{half_power_limit, AllWithin, AreSorted};

use crate::PowerFault;
use crate::moves::{Arrival, all_moves};
use crate::runs::sums;
use sp_fock::Vector;
use std::alloc::{AllocError, Global};

/// The divided power `f_i^(m)` of a vector: to each partition, m nodes of residue `i` are added in all ways.
///
/// `TooLarge` only where, at some partition, the sizes of the polynomials that reach it sum up to more than the limit,
/// and a result only where they don't. `e` is from 2 to 64, the degree and m are at most 32 together, and the powers
/// of the vector are within half of the limit on powers.
pub fn induce(
    alloc: Global,
    e: u8,
    i: u8,
    m: u8,
    v: &Vector,
    limit: u128,
) -> Result<Vector, PowerFault>
    requires e_least { 2 ≤ e }
    requires e_most { e ≤ 64 }
    requires below { i < e }
    requires room { v.now.degree + m ≤ 32 }
    requires powers { AllWithin half_power_limit v.now.entries }
    requires least { 1 ≤ limit }
    requires most { limit < 2 ^ 127 }
    ensures ok { IfOk result
        (λ w. w ≡ fock_vector (v.now.degree + m) (divided_power e i m (vector_of v.now.entries))) }
    ensures fits { OnOk result (induction_weight e i m v.now.degree (vector_of v.now.entries) ≤ limit) }
    ensures too_large { IsErrOf result PowerFault.TooLarge
        → limit < induction_weight e i m v.now.degree (vector_of v.now.entries) }
    ensures powers { IfOk result
        (λ w. (d : ℕ) → AllWithin d v.now.entries → AllWithin (m * (v.now.degree + 1) + d) w.entries) }
{
    let moves = sorted_moves(alloc, e, i, m, v)?;
    let sums = sums(alloc, v.pairs(), &moves, limit)?;
    Ok(Vector::from_pairs(v.degree() + m, sums))
}

// All moves of m nodes of residue `i` from the partitions of the vector, in the order of the partitions they lead to.
fn sorted_moves(alloc: Global, e: u8, i: u8, m: u8, v: &Vector) -> Result<Vec<Arrival>, AllocError>
    requires e_least { 2 ≤ e }
    requires e_most { e ≤ 64 }
    requires below { i < e }
    requires room { v.now.degree + m ≤ 32 }
    ensures { IfOk result (λ moves. AreSorted e i m v.now.degree v.now.entries moves.items) }
{
    let mut moves = all_moves(alloc, e, i, m, v.pairs())?;
    sort_by_partition(&mut moves);
    Ok(moves)
}

// Moves to one partition stand together, and the partitions ascend.
fn sort_by_partition(arrivals: &mut Vec<Arrival>)
    ensures permutation { IsPermutation arrivals.old.items arrivals.new.items }
    ensures sorted { IsSortedByKey (λ t. t.0) order arrivals.new.items }
{
    arrivals.sort_unstable_by_key(|arrival| arrival.partition);
}

// The divided power of a vector over ranks.
ghost use Rattle.std.specs.Prelude.{◌≡◌, ℕ, ◌+◌, ◌*◌, ◌^◌, ◌<◌, ◌≤◌, IfOk, OnOk, IsErrOf};
ghost use Rattle.std.specs.Ordering.{nat_cmp};
ghost use Rattle.std.specs.List.Sorted.{IsPermutation, IsSortedByKey};
ghost use Rattle.sp_defs.specs.Power.{fock_vector, vector_of, divided_power, induction_weight};
ghost use Rattle.sp_power.specs.Arrivals.{half_power_limit, AllWithin};
ghost use Rattle.sp_ranks.specs.Sorted.{AreSortedByRank};

use crate::sums::sums;
use crate::walk::{Arrival, all_moves};
use crate::{Moves, RankVector};
use sp_power::PowerFault;
use std::alloc::{AllocError, Global};

/// The divided power `f_i^(m)` of a vector: to each partition, m nodes of residue `i` are added in all ways.
///
/// `TooLarge` only where, at some partition, the sizes of the polynomials that reach it sum up to more than the limit,
/// and a result only where they don't. `e` is from 2 to 64, and the powers of the vector are within half of the limit
/// on powers.
pub fn induce(
    alloc: Global,
    moves: &Moves,
    e: u8,
    i: u8,
    m: u8,
    v: &RankVector,
    limit: u128,
) -> Result<RankVector, PowerFault>
    requires e_least { 2 ≤ e }
    requires e_most { e ≤ 64 }
    requires below { i < e }
    requires residues { moves.now.e ≡ e }
    requires room { v.now.degree + m ≤ moves.now.degree }
    requires powers { AllWithin half_power_limit v.now.entries }
    requires least { 1 ≤ limit }
    requires most { limit < 2 ^ 127 }
    ensures ok { IfOk result
        (λ w. w ≡ fock_vector (v.now.degree + m) (divided_power e i m (vector_of v.now.entries))) }
    ensures fits { OnOk result (induction_weight e i m v.now.degree (vector_of v.now.entries) ≤ limit) }
    ensures too_large { IsErrOf result PowerFault.TooLarge
        → limit < induction_weight e i m v.now.degree (vector_of v.now.entries) }
    ensures powers { IfOk result
        (λ w. (d : ℕ) → AllWithin d v.now.entries → AllWithin (m * (v.now.degree + 1) + d) w.entries) }
{
    let found = sorted_moves(alloc, moves, e, i, m, v)?;
    sums(alloc, v.degree() + m, v, &found, limit)
}

// All moves of m nodes of residue `i` from the partitions of the vector, in the order of the ranks they lead to.
fn sorted_moves(
    alloc: Global,
    moves: &Moves,
    e: u8,
    i: u8,
    m: u8,
    v: &RankVector,
) -> Result<Vec<Arrival>, AllocError>
    requires e_least { 2 ≤ e }
    requires e_most { e ≤ 64 }
    requires below { i < e }
    requires residues { moves.now.e ≡ e }
    requires room { v.now.degree + m ≤ moves.now.degree }
    ensures { IfOk result (λ found. AreSortedByRank e i m v.now found.items) }
{
    let _most = moves.degree();
    let _held = v.degree();
    let mut found = all_moves(alloc, moves, e, i, m, v)?;
    sort_by_rank(&mut found);
    Ok(found)
}

// Moves to one rank stand together, and the ranks ascend.
fn sort_by_rank(arrivals: &mut Vec<Arrival>)
    ensures permutation { IsPermutation arrivals.old.items arrivals.new.items }
    ensures sorted { IsSortedByKey (λ t. t.rank) nat_cmp arrivals.new.items }
{
    arrivals.sort_unstable_by_key(|arrival| arrival.rank);
}

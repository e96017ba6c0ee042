// How shares and stray partitions are found in a vector.
ghost use Rattle.std.specs.Prelude.{◌≡◌, ◌≤◌, ◌<◌, ◌^◌, ℕ, [], length, find, reverse};
ghost use Rattle.std.specs.Prelude.{IfOk, IsErrOf, MatchOption};
ghost use Rattle.std.specs.List.{AllByRecursion};
ghost use Rattle.std.specs.Option.{option_map};
ghost use Rattle.sp_defs.specs.Partition.{partitions};
ghost use Rattle.sp_defs.specs.Laurent.{size};
ghost use Rattle.sp_defs.specs.Power.{vector_of};
ghost use Rattle.sp_llt.specs.Places.{partitions_at};
ghost use Rattle.sp_llt.specs.Search.{lift_at as lift_of, IsLift, NoLift, IsLastLift, IsLargeLift, is_stray_entry};

use crate::Share;
use sp_fock::Vector;
use sp_laurent::{Laurent, LaurentFault};
use sp_partition::Partition;
use sp_slots::Slots;
use std::alloc::Global;

// The greatest rank below `end` at whose partition the lift of the coefficient isn't 0, with this lift. The partition
// of a rank is told by its place among all of the degree.
pub(crate) fn next_share(
    alloc: Global,
    places: &[usize],
    slots: &Slots,
    end: usize,
    limit: u128,
) -> Result<Option<Share>, LaurentFault>
    requires end { end ≤ length places.now }
    requires places { AllByRecursion (λ i. i < length (partitions slots.now.vector.degree)) places.now }
    requires least { 1 ≤ limit }
    requires most { limit < 2 ^ 127 }
    ensures found { IfOk result (λ found. MatchOption found
        (NoLift (vector_of slots.now.vector.entries)
        (partitions_at (partitions slots.now.vector.degree) places.now) 0 end)
        (IsLastLift (vector_of slots.now.vector.entries)
        (partitions_at (partitions slots.now.vector.degree) places.now) end limit)) }
    ensures too_large { IsErrOf result LaurentFault.TooLarge →
        (j : ℕ) × IsLargeLift (vector_of slots.now.vector.entries)
        (partitions_at (partitions slots.now.vector.degree) places.now) end limit j }
{
    for rank in (0..end).rev() {
        match lift_at(alloc, places, slots, rank, limit) {
            Ok(Some(alpha)) => return Ok(Some(Share { rank, alpha })),
            Ok(None) => {}
            Err(fault) => return Err(fault),
        }
    }
    Ok(None)
}

// The lift of the coefficient at the partition of a rank, unless it is 0.
fn lift_at(
    alloc: Global,
    places: &[usize],
    slots: &Slots,
    rank: usize,
    limit: u128,
) -> Result<Option<Laurent>, LaurentFault>
    requires rank { rank < length places.now }
    requires places { AllByRecursion (λ i. i < length (partitions slots.now.vector.degree)) places.now }
    requires least { 1 ≤ limit }
    requires most { limit < 2 ^ 127 }
    ensures found { IfOk result (λ found. MatchOption found
        (lift_of (vector_of slots.now.vector.entries)
        (partitions_at (partitions slots.now.vector.degree) places.now) rank ≡ [])
        (IsLift (vector_of slots.now.vector.entries)
        (partitions_at (partitions slots.now.vector.degree) places.now) rank limit)) }
    ensures too_large { IsErrOf result LaurentFault.TooLarge →
        limit < size (lift_of (vector_of slots.now.vector.entries)
        (partitions_at (partitions slots.now.vector.degree) places.now) rank) }
{
    let coefficient = slots.coefficient(places[rank]);
    if coefficient.in_vzv() {
        Ok(None)
    } else {
        Ok(Some(coefficient.lift(alloc, limit)?))
    }
}

// The greatest partition other than `mu` whose coefficient isn't in vZ[v].
pub(crate) fn stray_in(vector: &Vector, mu: &Partition) -> Option<Partition>
    ensures { result ≡ option_map (λ t. t.0) (find (is_stray_entry mu.now) (reverse vector.now.entries)) }
{
    vector
        .pairs()
        .iter()
        .rev()
        .find(|pair| is_stray(pair, mu))
        .map(|pair| pair.0)
}

// Whether this is another partition than `mu`, with a coefficient that isn't in vZ[v].
fn is_stray(pair: &(Partition, Laurent), mu: &Partition) -> bool
    ensures { result ≡ is_stray_entry mu.now pair.now }
{
    let _held = pair.1.terms();
    let is_other = pair.0 != *mu;
    is_other && !pair.1.in_vzv()
}

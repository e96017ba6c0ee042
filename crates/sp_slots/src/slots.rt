// A tally with a slot for each partition.
ghost use Rattle.std.specs.Prelude.{◌≡◌, ℕ, ◌^◌, ◌<◌, ◌≤◌, List, [], length, get_or, IfOk, OnOk, IsErrOf};
ghost use Rattle.std.specs.List.{AllByRecursion};
ghost use Rattle.sp_defs.specs.Partition.{partitions, IsPartitionOf};
ghost use Rattle.sp_defs.specs.Power.{vector_of};
ghost use Rattle.sp_defs.specs.Within.{ProductWithin};
ghost use Rattle.sp_fock_law.specs.Tally.{subtracted, subtraction_weight, tally_of, total_of};
ghost use Rattle.sp_laurent.specs.Held.{power_limit};

use crate::Indexed;
use crate::slot::Slot;
use sp_fock::{FockFault, Vector};
use sp_laurent::Laurent;
use sp_partition::Partition;
use sp_ranks::{Polynomials, RankVector};
use std::alloc::{AllocError, Global};
use std::marker::Model;

/// A vector with a total for each partition of its degree, which is at least the size of the polynomial there.
#[derive(Drop)]
pub struct Slots {
    degree: u8,
    // One for each partition of the degree, ascending.
    slots: Vec<Slot>,
}

impl Model for Slots {
    ghost use Rattle.sp_fock_law.specs.Tally.{TallyValue};
    ghost use Rattle.sp_slots.specs.Slots.{tally_in, AreSlots};

    ghost Value = { TallyValue };

    ghost view = { λ a. tally_in a.degree a.slots.items };

    ghost invariant = { λ a. AreSlots a.degree a.slots.items };
}

impl Slots {
    /// The vector, with the sizes of its polynomials as the totals. `all` are the partitions of its degree.
    pub fn from_vector(alloc: Global, all: &[Partition], v: &Vector) -> Result<Slots, AllocError>
        requires { all.now ≡ partitions v.now.degree }
        ensures { IfOk result (λ slots. slots ≡ tally_of v.now) }
    {
        let mut slots = Vec::with_capacity(alloc, all.len())?;
        let pairs = v.pairs();
        let mut place = 0;
        for p in all {
            if place < pairs.len() && pairs[place].0 == *p {
                slots.push(Slot::sized(alloc, &pairs[place].1)?)?;
                place += 1;
            } else {
                slots.push(Slot::empty(alloc))?;
            }
        }
        Ok(Slots {
            degree: v.degree(),
            slots,
        })
    }

    /// The same for a vector over ranks.
    pub fn from_ranks(alloc: Global, all: &[Partition], v: &RankVector) -> Result<Slots, AllocError>
        requires { all.now ≡ partitions v.now.degree }
        ensures { IfOk result (λ slots. slots ≡ tally_of v.now) }
    {
        let degree = v.degree();
        let mut slots = Vec::with_capacity(alloc, all.len())?;
        let mut place = 0;
        for index in 0..all.len() {
            if place < v.count() && usize::from(v.rank(place)) == index {
                slots.push(Slot::of_terms(alloc, v.terms(place))?)?;
                place += 1;
            } else {
                slots.push(Slot::empty(alloc))?;
            }
        }
        Ok(Slots { degree, slots })
    }

    /// The polynomial at the partition of a place. It takes no memory.
    pub fn coefficient(&self, index: usize) -> &Laurent
        requires { index < length (partitions self.now.vector.degree) }
        ensures { result.now ≡
            vector_of self.now.vector.entries (get_or (partitions self.now.vector.degree) index []) }
    {
        let slot = &self.slots[index];
        &slot.coefficient
    }

    /// Subtracts `a` times `w`. The total at each partition grows by the product of the sizes of `a` and of what `w`
    /// has there. It is refused as too large where a total grows past the limit.
    pub fn subtract(
        self,
        alloc: Global,
        a: &Laurent,
        w: &Indexed,
        limit: u128,
    ) -> Result<Slots, FockFault>
        requires one_degree { self.vector.degree ≡ w.now.degree }
        requires least { 1 ≤ limit }
        requires most { limit < 2 ^ 127 }
        requires totals { (lambda : List ℕ) → IsPartitionOf self.vector.degree lambda →
            total_of self.totals lambda ≤ limit }
        requires within { AllByRecursion (λ t. ProductWithin power_limit a.now t.1) w.now.entries }
        ensures ok { IfOk result (λ slots. slots ≡ subtracted self a.now w.now) }
        ensures fits { OnOk result (subtraction_weight self a.now w.now ≤ limit) }
        ensures too_large { IsErrOf result FockFault.TooLarge → limit < subtraction_weight self a.now w.now }
    {
        let Slots { degree, mut slots } = self;
        let _held = a.terms();
        let negated = a.negate(alloc)?;
        let size = negated.size();
        let indices = w.indices();
        for k in 0..w.count() {
            let index = usize::from(indices[k]);
            slots[index].add_product(alloc, &negated, size, w.terms(k), limit)?;
        }
        Ok(Slots { degree, slots })
    }

    /// The vector, with the places of its partitions. `all` are the partitions of its degree.
    pub fn into_indexed(self, alloc: Global, all: &[Partition]) -> Result<Indexed, AllocError>
        requires all { all.now ≡ partitions self.vector.degree }
        requires few { length all.now ≤ 2 ^ 16 }
        ensures { IfOk result (λ row. row ≡ self.vector) }
    {
        let Slots { degree, slots } = self;
        let count = count_nonzero(&slots);
        let mut pairs = Vec::with_capacity(alloc, count)?;
        let mut indices = Vec::with_capacity(alloc, count)?;
        let mut polynomials = Polynomials::with_capacity(alloc, count, count_terms(&slots))?;
        for index in 0..slots.len() {
            let p = all[index];
            let _held = p.parts();
            let slot = &slots[index];
            if !slot.is_zero() {
                // A copy has no room to grow, which the polynomial of a slot may have.
                pairs.push((p, slot.coefficient.copy(alloc)?))?;
                indices.push(index as u16)?;
                polynomials.push(slot.coefficient.terms())?;
            }
        }
        Ok(Indexed::new(Vector::from_pairs(degree, pairs), indices, polynomials))
    }
}

fn count_nonzero(slots: &[Slot]) -> usize {
    slots.iter().filter(|slot| !slot.is_zero()).count()
}

// How many terms they have in all, as far as `usize` counts.
fn count_terms(slots: &[Slot]) -> usize {
    let mut count = 0;
    for slot in slots {
        count = slot.coefficient.terms().len().saturating_add(count);
    }
    count
}

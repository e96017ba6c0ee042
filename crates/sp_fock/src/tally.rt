// A vector with a total for each partition.
ghost use Rattle.std.specs.Prelude.{◌≡◌, ◌^◌, ◌<◌, ◌≤◌, ◌↔◌, IsErrOf, IsTrue, IfOk};
ghost use Rattle.std.specs.List.{AllByRecursion};
ghost use Rattle.sp_defs.specs.Within.{ProductWithin};
ghost use Rattle.sp_fock_law.specs.Tally.{IsTally, subtracted, subtraction_weight, tally_of, total_of};
ghost use Rattle.sp_laurent.specs.Held.{power_limit};

use crate::totals::{grown_totals, sizes_of, totals_fit};
use crate::{FockFault, Vector};
use sp_laurent::Laurent;
use sp_partition::Partition;
use std::alloc::{AllocError, Global};
use std::marker::Model;

/// A vector with a total for each partition, which is at least the size of the vector's polynomial there.
#[derive(Drop)]
pub struct Tally {
    vector: Vector,
    // The partitions whose total isn't 0, ascending.
    totals: Vec<(Partition, u128)>,
}

impl Model for Tally {
    ghost use Rattle.sp_fock_law.specs.Tally.{IsTally, TallyValue};

    ghost Value = { TallyValue };

    ghost view = { λ a. record { vector = a.vector; totals = a.totals.items } };

    ghost invariant = { λ a. IsTally (record { vector = a.vector; totals = a.totals.items }) };
}

impl Tally {
    /// The vector, with the sizes of its polynomials as the totals.
    pub fn from_vector(alloc: Global, v: Vector) -> Result<Tally, AllocError>
        ensures { IfOk result (λ t. t ≡ tally_of v) }
    {
        let totals = sizes_of(alloc, v.pairs())?;
        Ok(Tally { vector: v, totals })
    }

    /// Subtracts `a` times `w`. The total at each partition grows by the product of the sizes of `a` and of what `w`
    /// has there. It is refused as too large where a total grows past the limit.
    pub fn subtract(
        self,
        alloc: Global,
        a: &Laurent,
        w: &Vector,
        limit: u128,
    ) -> Result<Tally, FockFault>
        requires one_degree { self.vector.degree ≡ w.now.degree }
        requires least { 1 ≤ limit }
        requires most { limit < 2 ^ 127 }
        requires within { AllByRecursion (λ t. ProductWithin power_limit a.now t.1) w.now.entries }
        ensures ok { IfOk result (λ t. t ≡ subtracted self a.now w.now) }
        ensures too_large { IsErrOf result FockFault.TooLarge ↔ (limit < subtraction_weight self a.now w.now) }
    {
        if !self.can_subtract(a, w, limit) {
            return Err(FockFault::TooLarge);
        }
        self.left(alloc, a, w, limit)
    }

    // Whether no total grows past the limit.
    fn can_subtract(&self, a: &Laurent, w: &Vector, limit: u128) -> bool
        requires { self.now.vector.degree ≡ w.now.degree }
        ensures { IsTrue result ↔ (subtraction_weight self.now a.now w.now ≤ limit) }
    {
        totals_fit(&self.totals, a.size(), w.pairs(), limit)
    }

    // This without `a` times `w`.
    fn left(self, alloc: Global, a: &Laurent, w: &Vector, limit: u128) -> Result<Tally, FockFault>
        requires one_degree { self.vector.degree ≡ w.now.degree }
        requires least { 1 ≤ limit }
        requires most { limit < 2 ^ 127 }
        requires within { AllByRecursion (λ t. ProductWithin power_limit a.now t.1) w.now.entries }
        requires fits { subtraction_weight self a.now w.now ≤ limit }
        ensures left { IfOk result (λ t. t ≡ subtracted self a.now w.now) }
        ensures fits { ¬ IsErrOf result FockFault.TooLarge }
    {
        let Tally { vector, totals } = self;
        let grown = grown_totals(alloc, &totals, a.size(), w.pairs(), limit)?;
        let negated = a.negate(alloc)?;
        let left = vector.plus_scaled(alloc, &negated, w, limit)?;
        Ok(Tally {
            vector: left,
            totals: grown,
        })
    }

    /// The vector.
    pub fn vector(&self) -> &Vector
        ensures value { result.now ≡ self.now.vector }
        ensures tally { IsTally self.now }
    {
        &self.vector
    }

    /// The vector alone.
    pub fn into_vector(self) -> Vector
        ensures { result ≡ self.vector }
    {
        let Tally { vector, totals: _ } = self;
        vector
    }

    /// The total at `p`: 0 where nothing was added up.
    pub fn total(&self, p: &Partition) -> u128
        ensures { result ≡ total_of self.now.totals p.now }
    {
        match self.totals.binary_search_by(|pair| pair.0.cmp(p)) {
            Ok(place) => self.totals[place].1,
            Err(_) => 0,
        }
    }
}

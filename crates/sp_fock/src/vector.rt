// A vector is kept as the ascending list of its partitions and polynomials.
ghost use Rattle.std.specs.Prelude.{◌≡◌, ◌^◌, ◌<◌, ◌≤◌, ◌↔◌, [], reverse};
ghost use Rattle.std.specs.Prelude.{IsErrOf, IsTrue, IsNone, IfSome, IfOk, OnOk, OnErr};
ghost use Rattle.std.specs.List.{AllByRecursion};
ghost use Rattle.sp_defs.specs.Partition.{degree as degree_of};
ghost use Rattle.sp_defs.specs.Power.{fock_vector, unit, vector_of};
ghost use Rattle.sp_fock_law.specs.Addition.{scaled_sum, scaled_sum_weight};
ghost use Rattle.sp_laurent.specs.Held.{power_limit};
ghost use Rattle.sp_defs.specs.Within.{ProductWithin};
ghost use Rattle.sp_fock.specs.Held.{IsHeld, held_as};

use crate::joined::all_fit;
use crate::sums::sum_of;
use crate::{FockFault, Terms};
use sp_laurent::Laurent;
use sp_partition::Partition;
use std::alloc::{AllocError, Global};
use std::marker::Model;

/// A vector of the Fock space: a degree, and for finitely many partitions of that degree a polynomial that isn't 0.
#[derive(Drop)]
pub struct Vector {
    degree: u8,
    pairs: Vec<(Partition, Laurent)>,
}

impl Model for Vector {
    ghost use Rattle.sp_defs.specs.Power.{FockVector};

    ghost Value = { FockVector };

    ghost use Rattle.sp_fock.specs.Held.{IsHeld, held_as};

    ghost view = { λ a. held_as a.degree a.pairs.items };

    ghost invariant = { λ a. IsHeld (held_as a.degree a.pairs.items) };
}

impl Vector {
    /// The vector 0 of a degree. It takes no memory.
    pub fn zero(alloc: Global, degree: u8) -> Vector
        ensures { result ≡ fock_vector degree (λ lambda. []) }
    {
        Vector {
            degree,
            pairs: Vec::new(alloc),
        }
    }

    /// The vector with coefficient 1 at one partition.
    pub fn one(alloc: Global, p: &Partition) -> Result<Vector, AllocError>
        ensures { IfOk result (λ v. v ≡ fock_vector (degree_of p.now) (unit p.now)) }
    {
        Ok(Vector {
            degree: p.degree(),
            pairs: vec![in alloc; (*p, Laurent::monomial(alloc, 1, 0)?)]?,
        })
    }

    /// The vector with these terms, by ascending partitions of the degree.
    pub fn from_pairs(degree: u8, pairs: Vec<(Partition, Laurent)>) -> Vector
        requires { IsHeld (held_as degree pairs.items) }
        ensures { result ≡ held_as degree pairs.items }
    {
        Vector { degree, pairs }
    }

    /// The degree of its partitions.
    pub fn degree(&self) -> u8
        ensures value { result ≡ self.now.degree }
        ensures held { IsHeld self.now }
    {
        self.degree
    }

    /// The partitions that occur, ascending, each with its polynomial.
    pub fn pairs(&self) -> &[(Partition, Laurent)]
        ensures value { result.now ≡ self.now.entries }
        ensures held { IsHeld self.now }
    {
        &self.pairs
    }

    /// The polynomial at `p`, or None where it is 0.
    pub fn coefficient(&self, p: &Partition) -> Option<&Laurent>
        ensures none { IsNone result ↔ (vector_of self.now.entries p.now ≡ []) }
        ensures some { IfSome result (λ q. q.now ≡ vector_of self.now.entries p.now) }
    {
        match self.pairs.binary_search_by(|pair| pair.0.cmp(p)) {
            Ok(place) => Some(&self.pairs[place].1),
            Err(_) => None,
        }
    }

    /// The terms, from the greatest partition to the least.
    pub fn terms(&self) -> Terms<'_>
        ensures { result ≡ reverse self.now.entries }
    {
        Terms { pairs: &self.pairs }
    }

    /// The same vector in memory of its own.
    pub fn copy(&self, alloc: Global) -> Result<Vector, AllocError>
        ensures { IfOk result (λ copy. copy ≡ self.now) }
    {
        let mut pairs = Vec::new(alloc);
        for pair in &self.pairs {
            pairs.push((pair.0, pair.1.copy(alloc)?))?;
        }
        Ok(Vector {
            degree: self.degree,
            pairs,
        })
    }

    /// Adds `a` times `w`.
    ///
    /// It is refused as too large where, at some partition, the size here and the product of the sizes of `a` and of
    /// what `w` has there sum up to more than the limit. After a refusal the vector is as before.
    pub fn add_scaled(
        &mut self,
        alloc: Global,
        a: &Laurent,
        w: &Vector,
        limit: u128,
    ) -> Result<(), FockFault>
        requires one_degree { self.old.degree ≡ w.now.degree }
        requires least { 1 ≤ limit }
        requires most { limit < 2 ^ 127 }
        requires within { AllByRecursion (λ t. ProductWithin power_limit a.now t.1) w.now.entries }
        ensures ok { OnOk result (self.new ≡ scaled_sum self.old a.now w.now) }
        ensures too_large { IsErrOf result FockFault.TooLarge ↔ (limit < scaled_sum_weight self.old a.now w.now) }
        ensures kept { OnErr result (self.new ≡ self.old) }
    {
        if !self.sum_fits(a, w, limit) {
            return Err(FockFault::TooLarge);
        }
        let copy = self.copy(alloc)?;
        *self = copy.plus_scaled(alloc, a, w, limit)?;
        Ok(())
    }

    // Whether no size at a partition passes the limit.
    fn sum_fits(&self, a: &Laurent, w: &Vector, limit: u128) -> bool
        requires { self.now.degree ≡ w.now.degree }
        ensures { IsTrue result ↔ (scaled_sum_weight self.now a.now w.now ≤ limit) }
    {
        all_fit(&self.pairs, a.size(), &w.pairs, limit)
    }

    // This and `a` times `w`.
    pub(crate) fn plus_scaled(
        self,
        alloc: Global,
        a: &Laurent,
        w: &Vector,
        limit: u128,
    ) -> Result<Vector, FockFault>
        requires one_degree { self.degree ≡ w.now.degree }
        requires least { 1 ≤ limit }
        requires most { limit < 2 ^ 127 }
        requires within { AllByRecursion (λ t. ProductWithin power_limit a.now t.1) w.now.entries }
        requires fits { scaled_sum_weight self a.now w.now ≤ limit }
        ensures sum { IfOk result (λ sum. sum ≡ scaled_sum self a.now w.now) }
        ensures fits { ¬ IsErrOf result FockFault.TooLarge }
    {
        let Vector { degree, pairs } = self;
        Ok(Vector {
            degree,
            pairs: sum_of(alloc, pairs, a, &w.pairs, limit)?,
        })
    }
}

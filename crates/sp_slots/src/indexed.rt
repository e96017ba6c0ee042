// A vector whose partitions know their places.
ghost use Rattle.std.specs.Prelude.{◌≡◌, ◌<◌, [], length, get_or};
ghost use Rattle.sp_laurent.specs.Held.{IsHeld as IsHeldPolynomial};
ghost use Rattle.sp_fock.specs.Held.{IsHeld};

use sp_fock::Vector;
use sp_laurent::Term;
use sp_ranks::Polynomials;
use std::marker::Model;

/// A vector, with the place of each of its partitions among all of the degree, ascending. Its polynomials stand once
/// more in one list, where to read them in their order is fast.
#[derive(Drop)]
pub struct Indexed {
    vector: Vector,
    indices: Vec<u16>,
    polynomials: Polynomials,
}

impl Model for Indexed {
    ghost use Rattle.sp_defs.specs.Power.{FockVector};
    ghost use Rattle.sp_slots.specs.Indexed.{IsIndexed};

    ghost Value = { FockVector };

    ghost view = { λ a. a.vector };

    ghost invariant = { λ a. IsIndexed a.vector a.indices.items a.polynomials };
}

impl Indexed {
    ghost use Rattle.sp_slots.specs.Indexed.{AreIndices, IsIndexed};

    pub(crate) fn new(vector: Vector, indices: Vec<u16>, polynomials: Polynomials) -> Indexed
        requires { IsIndexed vector indices.items polynomials }
        ensures { result ≡ vector }
    {
        Indexed {
            vector,
            indices,
            polynomials,
        }
    }

    /// The vector alone. It takes no memory.
    pub fn vector(&self) -> &Vector
        ensures { result.now ≡ self.now }
    {
        &self.vector
    }

    /// The places of its partitions, in their order.
    pub(crate) fn indices(&self) -> &[u16]
        ensures { AreIndices self.now result.now }
    {
        &self.indices
    }

    /// How many partitions it has.
    pub(crate) fn count(&self) -> usize
        ensures value { result ≡ length self.now.entries }
        ensures held { IsHeld self.now }
    {
        self.vector.pairs().len()
    }

    /// The terms of the polynomial of the partition that is the k-th in their order.
    pub(crate) fn terms(&self, k: usize) -> &[Term]
        requires { k < length self.now.entries }
        ensures value { result.now ≡ (get_or self.now.entries k ([], [])).1 }
        ensures held { IsHeldPolynomial result.now }
    {
        self.polynomials.terms(k)
    }
}

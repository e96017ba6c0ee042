// Vectors over ranks.
ghost use Rattle.std.specs.Prelude.{◌≡◌, ◌^◌, ◌<◌, ◌≤◌, [], length, get_or, IfOk};
ghost use Rattle.sp_defs.specs.Partition.{partitions};
ghost use Rattle.sp_defs.specs.Power.{fock_vector, unit, IsVector};
ghost use Rattle.sp_laurent.specs.Held.{IsHeld};
ghost use Rattle.sp_ranks.specs.Ranks.{partition_at};

use crate::Polynomials;
use sp_laurent::Term;
use std::alloc::{AllocError, Global};
use std::marker::Model;

/// A vector: the ranks of its partitions, ascending, and their polynomials, none of which is 0.
#[derive(Drop)]
pub struct RankVector {
    degree: u8,
    ranks: Vec<u16>,
    polynomials: Polynomials,
}

impl Model for RankVector {
    ghost use Rattle.sp_defs.specs.Power.{FockVector};
    ghost use Rattle.sp_ranks.specs.Vectors.{entries_over, IsOverRanks};

    ghost Value = { FockVector };

    ghost view = { λ a. record { degree = a.degree; entries = entries_over a.degree a.ranks.items a.polynomials } };

    ghost invariant = { λ a. IsOverRanks a.degree a.ranks.items a.polynomials };
}

impl RankVector {
    ghost use Rattle.sp_ranks.specs.Vectors.{entries_over, IsOverRanks};

    /// The empty partition.
    pub fn one(alloc: Global) -> Result<RankVector, AllocError>
        ensures { IfOk result (λ v. v ≡ fock_vector 0 (unit [])) }
    {
        let mut ranks = Vec::new(alloc);
        let mut polynomials = Polynomials::new(alloc);
        ranks.push(0)?;
        polynomials.push(&[(0, 1)])?;
        Ok(RankVector {
            degree: 0,
            ranks,
            polynomials,
        })
    }

    /// The vector of these ranks and polynomials.
    pub(crate) fn over(degree: u8, ranks: Vec<u16>, polynomials: Polynomials) -> RankVector
        requires { IsOverRanks degree ranks.items polynomials }
        ensures { result ≡ record { degree = degree; entries = entries_over degree ranks.items polynomials } }
    {
        RankVector {
            degree,
            ranks,
            polynomials,
        }
    }

    /// It takes no memory.
    pub fn degree(&self) -> u8
        ensures value { result ≡ self.now.degree }
        ensures held { IsVector self.now.degree self.now.entries }
    {
        self.degree
    }

    /// How many partitions it has. It takes no memory.
    pub fn count(&self) -> usize
        ensures value { result ≡ length self.now.entries }
        ensures few { result ≤ 2 ^ 16 }
    {
        self.ranks.len()
    }

    /// The rank of the partition of a place. It takes no memory.
    pub fn rank(&self, place: usize) -> u16
        requires { place < length self.now.entries }
        ensures there { result < length (partitions self.now.degree) }
        ensures partition { partition_at self.now.degree result ≡ (get_or self.now.entries place ([], [])).0 }
    {
        self.ranks[place]
    }

    /// The terms of the polynomial of a place. It takes no memory.
    pub fn terms(&self, place: usize) -> &[Term]
        requires { place < length self.now.entries }
        ensures value { result.now ≡ (get_or self.now.entries place ([], [])).1 }
        ensures held { IsHeld result.now }
    {
        self.polynomials.terms(place)
    }
}

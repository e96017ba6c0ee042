// Polynomials with all their terms in one list.
ghost use Rattle.std.specs.Prelude.{◌≡◌, ◌<◌, ◌++◌, [], ◌∷◌, length, get_or, IfOk, OnOk};
ghost use Rattle.sp_laurent.specs.Held.{IsHeld};
ghost use Rattle.sp_ranks.specs.Polynomials.{begin_of};

use sp_laurent::Term;
use std::alloc::{AllocError, Global};
use std::marker::Model;

/// Polynomials, whose terms stand in one list.
#[derive(Drop)]
pub struct Polynomials {
    terms: Vec<Term>,
    // Where the terms of each end.
    ends: Vec<usize>,
}

impl Model for Polynomials {
    ghost use Rattle.std.specs.Prelude.{List};
    ghost use Rattle.sp_defs.specs.Laurent.{Laurent};
    ghost use Rattle.sp_ranks.specs.Polynomials.{pieces, ArePieces};

    ghost Value = { List Laurent };

    ghost view = { λ a. pieces 0 a.ends.items a.terms.items };

    ghost invariant = { λ a. ArePieces a.ends.items a.terms.items };
}

impl Polynomials {
    /// No polynomial. It takes no memory.
    pub fn new(alloc: Global) -> Polynomials
        ensures { result ≡ [] }
    {
        Polynomials {
            terms: Vec::new(alloc),
            ends: Vec::new(alloc),
        }
    }

    /// No polynomial, with memory for so many, with so many terms in all.
    pub fn with_capacity(
        alloc: Global,
        count: usize,
        terms: usize,
    ) -> Result<Polynomials, AllocError>
        ensures { IfOk result (λ polynomials. polynomials ≡ []) }
    {
        Ok(Polynomials {
            terms: Vec::with_capacity(alloc, terms)?,
            ends: Vec::with_capacity(alloc, count)?,
        })
    }

    /// How many they are. It takes no memory.
    pub fn count(&self) -> usize
        ensures { result ≡ length self.now }
    {
        self.ends.len()
    }

    /// The terms of the polynomial of a place. It takes no memory.
    pub fn terms(&self, place: usize) -> &[Term]
        requires { place < length self.now }
        ensures value { result.now ≡ get_or self.now place [] }
        ensures held { IsHeld result.now }
    {
        let start = begin(&self.ends, place);
        &self.terms[start..self.ends[place]]
    }

    /// Appends a polynomial.
    pub fn push(&mut self, polynomial: &[Term]) -> Result<(), AllocError>
        requires { IsHeld polynomial.now }
        ensures { OnOk result (self.new ≡ self.old ++ (polynomial.now ∷ [])) }
    {
        let before = self.terms.len();
        self.terms.extend_from_slice(polynomial)?;
        match self.ends.push(self.terms.len()) {
            Ok(()) => Ok(()),
            Err(fault) => {
                self.terms.truncate(before);
                Err(fault.into())
            }
        }
    }
}

// Where the terms of a place begin.
fn begin(ends: &[usize], place: usize) -> usize
    requires { place < length ends.now }
    ensures { result ≡ begin_of 0 ends.now place }
{
    if place == 0 { 0 } else { ends[place - 1] }
}

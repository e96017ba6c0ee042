//! Laurent polynomials in v with whole coefficients, whose size and powers have limits.
#![tactic(auto)]

ghost use Rattle.std.specs.Prelude.{◌≡◌, ℕ, ◌+◌, ◌*◌, ◌^◌, ◌<◌, ◌≤◌, ◌↔◌, unsigned_abs, IfOk, OnOk, OnErr, IsErrOf};
ghost use Rattle.std.specs.Prelude.{IsTrue, [], List, ℤ, ◌+ℤ◌, ◌-ℤ◌, ◌*ℤ◌, ◌++◌, pos, neg_ℤ, map, reverse};
ghost use Rattle.sp_defs.specs.Laurent.{IsPositive, IsBarInvariant, coefficient, int_sum, size, monomial, plus, times};
ghost use Rattle.sp_defs.specs.Laurent.{negate, bar, lift};
ghost use Rattle.sp_defs.specs.Laurent.{value_at_one};
ghost use Rattle.sp_defs.specs.Text.{polynomial_text};
ghost use Rattle.sp_defs.specs.Within.{PowersWithin, ProductWithin};
ghost use Rattle.sp_laurent.specs.Held.{IsHeld, power_limit};

use crate::mirror::{lifted, negated, push_mirrored, shifted};
use crate::products::add_product;
use crate::sums::{is_within, push_term, split_below, split_first};
use crate::text::print_terms;
use std::alloc::{AllocError, Global};
use std::marker::Model;

mod fault;
mod law;
mod mirror;
mod parsing;
mod products;
mod reader;
mod sums;
mod text;
mod values;

pub use fault::{LaurentFault, ParseFault};
pub use law::values_law;
pub use products::add_shifted;
pub use sums::{size_of, without_product};
pub use text::print_term;
pub use values::TooLarge;

/// Powers are at most this far from 0.
pub const POWER_LIMIT: i32 = 1_000_000_000;

/// Powers that are read from a text are at most this far from 0.
pub const READ_LIMIT: i32 = 10_000_000;

/// A power of v, and its coefficient.
pub type Term = (i32, i128);

/// A Laurent polynomial: its terms are pairs of a power of v and the coefficient there, which isn't 0, in ascending
/// order of powers.
#[derive(Drop)]
pub struct Laurent {
    terms: Vec<(i32, i128)>,
}

impl Model for Laurent {
    ghost use Rattle.std.specs.Prelude.{ℤ, List};
    ghost use Rattle.sp_laurent.specs.Held.{IsHeld};

    ghost Value = { List (ℤ × ℤ) };

    ghost view = { λ a. a.terms.items };

    ghost invariant = { λ a. IsHeld a.terms.items };
}

impl Laurent {
    /// The polynomial 0. It takes no memory.
    pub fn zero(alloc: Global) -> Laurent
        ensures { result ≡ [] }
    {
        Laurent {
            terms: Vec::new(alloc),
        }
    }

    /// `coefficient * v^power`.
    pub fn monomial(alloc: Global, coefficient: i128, power: i32) -> Result<Laurent, AllocError>
        requires small { unsigned_abs coefficient < 2 ^ 127 }
        requires within { unsigned_abs power ≤ power_limit }
        ensures { IfOk result (λ p. p ≡ monomial power coefficient) }
    {
        let mut terms = Vec::new(alloc);
        push_term(&mut terms, power, coefficient)?;
        Ok(Laurent { terms })
    }

    fn is_zero(&self) -> bool
        ensures { IsTrue result ↔ (self.now ≡ []) }
    {
        self.terms.is_empty()
    }

    /// The terms, strictly ascending by power.
    pub fn terms(&self) -> &[(i32, i128)]
        ensures value { result.now ≡ self.now }
        ensures held { IsHeld self.now }
    {
        &self.terms
    }

    /// The coefficient of `v^power`.
    pub fn coefficient(&self, power: i32) -> i128
        ensures { result ≡ coefficient self.now power }
    {
        match self.terms.binary_search_by_key(&power, |term| term.0) {
            Ok(place) => self.terms[place].1,
            Err(_) => 0,
        }
    }

    /// The sum of the absolute values of the coefficients.
    pub fn size(&self) -> u128
        ensures value { result ≡ size self.now }
        ensures held { IsHeld self.now }
    {
        size_of(&self.terms)
    }

    /// The polynomial with these terms, of which none is 0 and whose powers ascend.
    pub fn from_terms(alloc: Global, terms: &[Term]) -> Result<Laurent, AllocError>
        requires { IsHeld terms.now }
        ensures { IfOk result (λ p. p ≡ terms.now) }
    {
        Ok(Laurent {
            terms: Vec::from_slice(alloc, terms)?,
        })
    }

    /// The same polynomial in memory of its own.
    pub fn copy(&self, alloc: Global) -> Result<Laurent, AllocError>
        ensures { IfOk result (λ p. p ≡ self.now) }
    {
        Ok(Laurent {
            terms: Vec::from_slice(alloc, &self.terms)?,
        })
    }

    /// The polynomial with its coefficients negated.
    pub fn negate(&self, alloc: Global) -> Result<Laurent, AllocError>
        ensures { IfOk result (λ p. p ≡ negate self.now) }
    {
        Ok(Laurent {
            terms: negated(alloc, &self.terms)?,
        })
    }

    /// The polynomial with v and its inverse exchanged.
    pub fn bar(&self, alloc: Global) -> Result<Laurent, AllocError>
        ensures { IfOk result (λ p. p ≡ bar self.now) }
    {
        let mut terms = Vec::new(alloc);
        push_mirrored(&mut terms, &self.terms)?;
        Ok(Laurent { terms })
    }

    /// Whether only positive powers occur.
    pub fn in_vzv(&self) -> bool
        ensures { IsTrue result ↔ IsPositive self.now }
    {
        match self.terms.first() {
            Some(first) => first.0 > 0,
            None => true,
        }
    }

    /// The value at v = 1.
    pub fn at_one(&self) -> i128
        ensures { result ≡ value_at_one self.now }
    {
        let mut sum = 0;
        for term in &self.terms {
            sum += term.1;
        }
        sum
    }

    // The terms of negative powers, and the coefficient at the power 0: they decide the lift.
    fn lower_half(&self) -> (&[Term], i128)
        ensures lift { lift self.now ≡ (result.0.now ++ monomial (pos 0) result.1) ++ reverse (
            map (λ t. (neg_ℤ t.0, t.1)) result.0.now) }
        ensures sizes { size (lift self.now) ≡ 2 * size result.0.now + unsigned_abs result.1 }
        ensures small { size result.0.now + unsigned_abs result.1 < 2 ^ 127 }
        ensures within { PowersWithin power_limit result.0.now }
        ensures held { size (lift self.now) < 2 ^ 127 → IsHeld (lift self.now) }
    {
        let (below, others) = split_below(&self.terms, 0);
        let (constant, _) = split_first(others, 0);
        (below, constant)
    }

    /// The only polynomial that is the same with v and its inverse exchanged, and has the coefficients of this one at
    /// the powers up to 0. It is refused as too large where its size passes the limit.
    pub fn lift(&self, alloc: Global, limit: u128) -> Result<Laurent, LaurentFault>
        requires least { 1 ≤ limit }
        requires most { limit < 2 ^ 127 }
        ensures ok { IfOk result (λ p. p ≡ lift self.now) }
        ensures too_large { IsErrOf result LaurentFault.TooLarge ↔ (limit < size (lift self.now)) }

        // It is the only polynomial that is invariant and leaves, taken from this one, only positive powers.
        ensures invariant { IfOk result (λ p. IsBarInvariant p) }
        ensures rest { IfOk result (λ p. IsPositive (plus self.now (negate p))) }
        ensures unique { (a : List (ℤ × ℤ)) → IsBarInvariant a → IsPositive (plus self.now (negate a))
            → IfOk result (λ p. a ≡ p) }
    {
        let (below, constant) = self.lower_half();
        if 2 * size_of(below) + constant.unsigned_abs() > limit {
            return Err(LaurentFault::TooLarge);
        }
        Ok(Laurent {
            terms: lifted(alloc, below, constant)?,
        })
    }

    /// Adds `a * b`. It is refused as too large where the size of this polynomial, and the product of the sizes of `a`
    /// and `b`, sum up to more than the limit. After a refusal the polynomial is as before.
    pub fn add_scaled(
        &mut self,
        alloc: Global,
        a: &Laurent,
        b: &Laurent,
        limit: u128,
    ) -> Result<(), LaurentFault>
        requires least { 1 ≤ limit }
        requires most { limit < 2 ^ 127 }
        requires within { ProductWithin power_limit a.now b.now }
        ensures ok { OnOk result (self.new ≡ plus self.old (times a.now b.now)) }
        ensures too_large { IsErrOf result LaurentFault.TooLarge ↔ (limit < size self.old + size a.now * size b.now) }
        ensures err { OnErr result (self.new ≡ self.old) }
        ensures powers { (d : ℕ) → PowersWithin d self.old → ProductWithin d a.now b.now → PowersWithin d self.new }
        ensures held { IsHeld self.new }

        // The coefficient at j is that of before and, for each term c * v^k of `a`, c times that of `b` at j - k.
        ensures coefficients { (j : ℤ) → OnOk result (coefficient self.new j ≡ coefficient self.old j +ℤ int_sum (
            map (λ t. t.1 *ℤ coefficient b.now (j -ℤ t.0)) a.now)) }
    {
        if !is_within(limit, self.size(), a.size(), b.size()) {
            return Err(LaurentFault::TooLarge);
        }
        if a.is_zero() || b.is_zero() {
            return Ok(());
        }
        let mut sum = Vec::from_slice(alloc, &self.terms)?;
        add_product(&mut sum, &a.terms, &b.terms)?;
        self.terms = sum;
        Ok(())
    }

    /// This polynomial and `a * b`. It is refused as too large where the size of this polynomial, and the product of
    /// the sizes of `a` and `b`, sum up to more than the limit. The sum is made in this polynomial's own memory, which
    /// grows only where the sum has more terms.
    pub fn plus_product(
        self,
        a: &Laurent,
        b: &Laurent,
        limit: u128,
    ) -> Result<Laurent, LaurentFault>
        requires least { 1 ≤ limit }
        requires most { limit < 2 ^ 127 }
        requires within { ProductWithin power_limit a.now b.now }
        ensures ok { IfOk result (λ p. p ≡ plus self (times a.now b.now)) }
        ensures too_large { IsErrOf result LaurentFault.TooLarge ↔ (limit < size self + size a.now * size b.now) }
        ensures powers { (d : ℕ) → PowersWithin d self → ProductWithin d a.now b.now → IfOk result (λ p.
            PowersWithin d p) }
        ensures held { IfOk result (λ p. IsHeld p) }
    {
        if !is_within(limit, self.size(), a.size(), b.size()) {
            return Err(LaurentFault::TooLarge);
        }
        Ok(self.plus_product_within(a, &b.terms)?)
    }

    /// This polynomial and `a * b`, where the caller has seen that their sizes fit: nothing is checked. `b` are the terms
    /// of a polynomial. The sum is made in this polynomial's own memory, which grows only where the sum has more terms.
    pub fn plus_product_within(self, a: &Laurent, b: &[Term]) -> Result<Laurent, AllocError>
        requires held { IsHeld b.now }
        requires fits { size self + size a.now * size b.now < 2 ^ 127 }
        requires within { ProductWithin power_limit a.now b.now }
        ensures ok { IfOk result (λ p. p ≡ plus self (times a.now b.now)) }
        ensures powers { (d : ℕ) → PowersWithin d self → ProductWithin d a.now b.now → IfOk result (λ p.
            PowersWithin d p) }
        ensures held { IfOk result (λ p. IsHeld p) }
    {
        let mut terms = self.terms;
        add_product(&mut terms, &a.terms, b)?;
        Ok(Laurent { terms })
    }

    /// This polynomial and `other * v^power`. It is refused as too large where the sizes of both sum up to more than
    /// the limit. The sum is made in this polynomial's own memory, which grows only where the sum has more terms.
    pub fn plus_shifted(
        self,
        other: &Laurent,
        power: i32,
        limit: u128,
    ) -> Result<Laurent, LaurentFault>
        requires least { 1 ≤ limit }
        requires most { limit < 2 ^ 127 }
        requires within { ProductWithin power_limit (monomial power (pos 1)) other.now }
        ensures ok { IfOk result (λ p. p ≡ plus self (times (monomial power (pos 1)) other.now)) }
        ensures too_large { IsErrOf result LaurentFault.TooLarge ↔ (limit < size self + size other.now) }
        ensures powers { (d : ℕ) → PowersWithin d self → ProductWithin d (monomial power (pos 1)) other.now
            → IfOk result (λ p. PowersWithin d p) }
        ensures held { IfOk result (λ p. IsHeld p) }
    {
        if !is_within(limit, self.size(), 1, other.size()) {
            return Err(LaurentFault::TooLarge);
        }
        Ok(self.plus_shifted_within(other, power)?)
    }

    /// This polynomial and `other * v^power`, where the caller has seen that their sizes fit: nothing is checked. The
    /// sum is made in this polynomial's own memory, which grows only where the sum has more terms.
    pub fn plus_shifted_within(self, other: &Laurent, power: i32) -> Result<Laurent, AllocError>
        requires fits { size self + size other.now < 2 ^ 127 }
        requires within { ProductWithin power_limit (monomial power (pos 1)) other.now }
        ensures ok { IfOk result (λ p. p ≡ plus self (times (monomial power (pos 1)) other.now)) }
        ensures powers { (d : ℕ) → PowersWithin d self → ProductWithin d (monomial power (pos 1)) other.now
            → IfOk result (λ p. PowersWithin d p) }
        ensures held { IfOk result (λ p. IsHeld p) }
    {
        let mut terms = self.terms;
        add_shifted(&mut terms, power, &other.terms)?;
        Ok(Laurent { terms })
    }

    /// The product of this polynomial and `v^power`, in memory of its own.
    pub fn shifted(&self, alloc: Global, power: i32) -> Result<Laurent, AllocError>
        requires { ProductWithin power_limit (monomial power (pos 1)) self.now }
        ensures ok { IfOk result (λ p. p ≡ times (monomial power (pos 1)) self.now) }
        ensures held { IfOk result (λ p. IsHeld p) }
    {
        Ok(Laurent {
            terms: shifted(alloc, &self.terms, power)?,
        })
    }

    /// Appends the canonical text, as `v^-1+2+v`.
    pub fn print(&self, _alloc: Global, out: &mut Vec<u8>) -> Result<(), AllocError>
        ensures ok { OnOk result (out.new.items ≡ out.old.items ++ polynomial_text self.now) }
        ensures err { OnErr result (out.new.items ≡ out.old.items) }
    {
        let before = out.len();
        let printed = print_terms(&self.terms, out);
        if printed.is_err() {
            out.truncate(before);
        }
        printed
    }
}

//! Values of polynomials at v = 1, and their symmetry under the exchange of v and its inverse.
ghost use Rattle.std.specs.Prelude.{◌≡◌, ◌*◌, ◌^◌, ◌<◌, ◌≤◌, ◌↔◌, neg_ℤ, unsigned_abs, sum_by, map, reverse};
ghost use Rattle.std.specs.Prelude.{IsTrue, IsErr, IfOk};
ghost use Rattle.sp_defs.specs.Laurent.{bar, slope_at_one};
ghost use Rattle.sp_defs.specs.Within.{PowersWithin};
ghost use Rattle.sp_laurent.specs.Held.{power_limit};

use crate::{Laurent, Term};
use thiserror::Error;

/// The terms of a sum pass the limit.
#[derive(Clone, Copy, Debug, PartialEq, Eq, Error)]
#[error("sum too large")]
pub struct TooLarge;

// Whether the terms exchange when v and its inverse do.
fn is_mirror(a: Term, b: Term) -> bool
    requires { unsigned_abs b.0 ≤ power_limit }
    ensures { IsTrue result ↔ (a ≡ (neg_ℤ b.0, b.1)) }
{
    a.0 == -b.0 && a.1 == b.1
}

// Whether the terms from last to first, with their powers negated, are the terms again.
fn is_mirrored(terms: &[Term]) -> bool
    requires { PowersWithin power_limit terms.now }
    ensures { IsTrue result ↔ (reverse (map (λ t. (neg_ℤ t.0, t.1)) terms.now) ≡ terms.now) }
{
    let count = terms.len();
    for place in 0..count.div_ceil(2) {
        if !is_mirror(terms[place], terms[count - 1 - place]) {
            return false;
        }
    }
    true
}

// The slope at v = 1.
fn slope_of(terms: &[Term], limit: u128) -> Result<i128, TooLarge>
    requires { limit < 2 ^ 127 }
    ensures ok { IfOk result (λ slope. slope ≡ slope_at_one terms.now) }
    ensures too_large { IsErr result ↔ (limit < sum_by (λ t. unsigned_abs t.0 * unsigned_abs t.1) terms.now) }
{
    let mut slope = 0;
    let mut room = limit;
    for (power, coefficient) in terms {
        let weight = u128::from(power.unsigned_abs()).checked_mul(coefficient.unsigned_abs());
        match weight {
            Some(weight) if weight <= room => room -= weight,
            _ => return Err(TooLarge),
        }
        slope += i128::from(*power) * *coefficient;
    }
    Ok(slope)
}

impl Laurent {
    /// Whether the polynomial is the same with v and its inverse exchanged. It takes no memory.
    pub fn is_bar_invariant(&self) -> bool
        ensures { IsTrue result ↔ (bar self.now ≡ self.now) }
    {
        is_mirrored(&self.terms)
    }

    /// The value of the derivative at v = 1. It is refused as too large where the absolute values of the powers, each
    /// times that of its coefficient, sum up to more than the limit. It takes no memory.
    pub fn slope_at_one(&self, limit: u128) -> Result<i128, TooLarge>
        requires least { 1 ≤ limit }
        requires most { limit < 2 ^ 127 }
        ensures ok { IfOk result (λ slope. slope ≡ slope_at_one self.now) }
        ensures too_large { IsErr result ↔ (limit < sum_by (λ t. unsigned_abs t.0 * unsigned_abs t.1) self.now) }
    {
        slope_of(&self.terms, limit)
    }
}

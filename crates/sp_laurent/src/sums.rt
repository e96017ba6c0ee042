//! Sums of ascending lists of terms.
ghost use Rattle.std.specs.Prelude.{◌≡◌, ◌+◌, ◌*◌, ◌^◌, ◌<◌, ◌≤◌, unsigned_abs, IfOk, OnOk, IsTrue, SomeIff, ◌-◌, ◌↔◌};
ghost use Rattle.std.specs.Prelude.{◌++◌, ◌<ℤ◌, ◌≤ℤ◌};
ghost use Rattle.std.specs.List.{AllByRecursion};
ghost use Rattle.sp_defs.specs.Laurent.{IsLaurent, size, monomial};

use crate::Term;
use std::alloc::{AllocError, Global};

/// The sum of the absolute values of the coefficients.
pub fn size_of(terms: &[Term]) -> u128
    requires { size terms.now < 2 ^ 127 }
    ensures { result ≡ size terms.now }
{
    terms.iter().map(|term| term.1.unsigned_abs()).sum()
}

/// Whether a sum of sizes and a product of sizes stay within a limit.
pub(crate) fn is_within(limit: u128, size: u128, a: u128, b: u128) -> bool
    ensures { IsTrue result ↔ (size + a * b ≤ limit) }
{
    match a.checked_mul(b) {
        Some(product) => match product.checked_add(size) {
            Some(sum) => sum <= limit,
            None => false,
        },
        None => false,
    }
}

/// The room that a product leaves, or `None` where it doesn't fit. So a sum of products is held within a limit.
pub fn without_product(room: u128, a: u128, b: u128) -> Option<u128>
    ensures { SomeIff result (a * b ≤ room) (room - a * b) }
{
    match a.checked_mul(b) {
        Some(product) => room.checked_sub(product),
        None => None,
    }
}

/// Appends a term, unless its coefficient is 0.
pub(crate) fn push_term(
    terms: &mut Vec<Term>,
    power: i32,
    coefficient: i128,
) -> Result<(), AllocError>
    ensures { OnOk result (terms.new.items ≡ terms.old.items ++ monomial power coefficient) }
{
    if coefficient != 0 {
        terms.push((power, coefficient))?;
    }
    Ok(())
}

/// The terms below a power, and the others.
pub(crate) fn split_below(terms: &[Term], power: i32) -> (&[Term], &[Term])
    requires { IsLaurent terms.now }
    ensures joined { result.0.now ++ result.1.now ≡ terms.now }
    ensures below { AllByRecursion (λ t. t.0 <ℤ power) result.0.now }
    ensures above { AllByRecursion (λ t. power ≤ℤ t.0) result.1.now }
{
    terms.split_at(terms.partition_point(|term| term.0 < power))
}

/// The coefficient at a power that no term is below, and the terms above that power.
pub(crate) fn split_first(terms: &[Term], power: i32) -> (i128, &[Term])
    requires laurent { IsLaurent terms.now }
    requires above { AllByRecursion (λ t. power ≤ℤ t.0) terms.now }
    ensures joined { monomial power result.0 ++ result.1.now ≡ terms.now }
    ensures above { AllByRecursion (λ t. power <ℤ t.0) result.1.now }
{
    let [first, above @ ..] = terms else {
        return (0, terms);
    };
    if first.0 == power {
        (first.1, above)
    } else {
        (0, terms)
    }
}

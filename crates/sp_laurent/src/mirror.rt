//! Terms with their powers or their coefficients negated, or with their powers shifted.
ghost use Rattle.std.specs.Prelude.{◌≡◌, ◌+ℤ◌, ◌++◌, ◌^◌, ◌<◌, map, reverse, pos, neg_ℤ, OnOk, IfOk};
ghost use Rattle.sp_defs.specs.Laurent.{size, monomial};
ghost use Rattle.sp_defs.specs.Within.{PowersWithin, ProductWithin};
ghost use Rattle.sp_laurent.specs.Held.{power_limit};

use crate::Term;
use crate::sums::push_term;
use std::alloc::{AllocError, Global};

/// Appends the terms from last to first, with the powers negated.
pub(crate) fn push_mirrored(out: &mut Vec<Term>, terms: &[Term]) -> Result<(), AllocError>
    requires { PowersWithin power_limit terms.now }
    ensures { OnOk result (out.new.items ≡ out.old.items ++ reverse (map (λ t. (neg_ℤ t.0, t.1)) terms.now)) }
{
    for (power, coefficient) in terms.iter().rev() {
        out.push((-*power, *coefficient))?;
    }
    Ok(())
}

/// The terms with their coefficients negated.
pub(crate) fn negated(alloc: Global, terms: &[Term]) -> Result<Vec<Term>, AllocError>
    requires { size terms.now < 2 ^ 127 }
    ensures { IfOk result (λ v. v.items ≡ map (λ t. (t.0, neg_ℤ t.1)) terms.now) }
{
    let mut negated = Vec::new(alloc);
    for (power, coefficient) in terms {
        negated.push((*power, -*coefficient))?;
    }
    Ok(negated)
}

/// Appends the terms with a number added to their powers.
pub(crate) fn push_shifted(
    out: &mut Vec<Term>,
    terms: &[Term],
    power: i32,
) -> Result<(), AllocError>
    requires { ProductWithin power_limit (monomial power (pos 1)) terms.now }
    ensures { OnOk result (out.new.items ≡ out.old.items ++ map (λ t. (power +ℤ t.0, t.1)) terms.now) }
{
    for (place, coefficient) in terms {
        out.push((power + *place, *coefficient))?;
    }
    Ok(())
}

/// The terms with a number added to their powers.
pub(crate) fn shifted(alloc: Global, terms: &[Term], power: i32) -> Result<Vec<Term>, AllocError>
    requires { ProductWithin power_limit (monomial power (pos 1)) terms.now }
    ensures { IfOk result (λ v. v.items ≡ map (λ t. (power +ℤ t.0, t.1)) terms.now) }
{
    let mut shifted = Vec::with_capacity(alloc, terms.len())?;
    push_shifted(&mut shifted, terms, power)?;
    Ok(shifted)
}

/// These terms of negative powers, then `constant` at the power 0, then the terms again with their powers negated.
pub(crate) fn lifted(alloc: Global, below: &[Term], constant: i128) -> Result<Vec<Term>, AllocError>
    requires { PowersWithin power_limit below.now }
    ensures { IfOk result (λ v.
        v.items ≡ (below.now ++ monomial (pos 0) constant) ++ reverse (map (λ t. (neg_ℤ t.0, t.1)) below.now)) }
{
    let mut terms = Vec::from_slice(alloc, below)?;
    push_term(&mut terms, 0, constant)?;
    push_mirrored(&mut terms, below)?;
    Ok(terms)
}

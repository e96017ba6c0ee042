//! Polynomials in notations other than the canonical one.
ghost use Rattle.std.specs.Prelude.{◌≡◌, ◌++◌, take, length, flat_map, OnOk, OnErr};
ghost use Rattle.sp_paint.specs.Notation.{exponent_text, factor_text, first_term_text, later_term_text};
ghost use Rattle.sp_paint.specs.Notation.{polynomial_text, power_text, term_text};

use crate::text::put_number;
use itoa::Integer;
use sp_laurent::Laurent;
use std::alloc::AllocError;

/// How powers are written.
#[derive(Clone, Copy, Debug)]
pub(crate) enum Notation {
    /// Each exponent stands in braces.
    Braced,
    /// A star stands between a coefficient and v.
    Starred,
}

/// Appends an exponent with its caret. An `Err` may leave more at the end of `out`, here and below.
pub(crate) fn put_exponent<N: Integer>(
    notation: Notation,
    exponent: N,
    out: &mut Vec<u8>,
) -> Result<(), AllocError>
    ensures text { OnOk result (out.new.items ≡ out.old.items ++ exponent_text notation (N.text exponent)) }
    ensures kept { OnErr result (take (length out.old.items) out.new.items ≡ out.old.items) }
{
    match notation {
        Notation::Braced => {
            out.extend_from_slice(b"^{")?;
            put_number(exponent, out)?;
            Ok(out.push(b'}')?)
        }
        Notation::Starred => {
            out.push(b'^')?;
            put_number(exponent, out)
        }
    }
}

// A coefficient in front of v. 1 isn't written.
#[tactic(auto, unfolding(crate::specs::Notation::factor_text))]
fn put_factor(notation: Notation, coefficient: u128, out: &mut Vec<u8>) -> Result<(), AllocError>
    ensures text { OnOk result (out.new.items ≡ out.old.items ++ factor_text notation coefficient) }
    ensures kept { OnErr result (take (length out.old.items) out.new.items ≡ out.old.items) }
{
    if coefficient == 1 {
        return Ok(());
    }
    put_number(coefficient, out)?;
    match notation {
        Notation::Braced => Ok(()),
        Notation::Starred => Ok(out.push(b'*')?),
    }
}

// v to a power that isn't 0.
#[tactic(auto, unfolding(crate::specs::Notation::power_text))]
fn put_power(notation: Notation, power: i32, out: &mut Vec<u8>) -> Result<(), AllocError>
    ensures text { OnOk result (out.new.items ≡ out.old.items ++ power_text notation power) }
    ensures kept { OnErr result (take (length out.old.items) out.new.items ≡ out.old.items) }
{
    out.push(b'v')?;
    if power == 1 {
        return Ok(());
    }
    put_exponent(notation, power, out)
}

// A term without its sign.
#[tactic(auto, unfolding(crate::specs::Notation::term_text))]
fn put_term(notation: Notation, term: (i32, i128), out: &mut Vec<u8>) -> Result<(), AllocError>
    ensures text { OnOk result (out.new.items ≡ out.old.items ++ term_text notation term) }
    ensures kept { OnErr result (take (length out.old.items) out.new.items ≡ out.old.items) }
{
    let (power, coefficient) = term;
    if power == 0 {
        return put_number(coefficient.unsigned_abs(), out);
    }
    put_factor(notation, coefficient.unsigned_abs(), out)?;
    put_power(notation, power, out)
}

fn put_first_term(
    notation: Notation,
    term: (i32, i128),
    out: &mut Vec<u8>,
) -> Result<(), AllocError>
    ensures text { OnOk result (out.new.items ≡ out.old.items ++ first_term_text notation term) }
    ensures kept { OnErr result (take (length out.old.items) out.new.items ≡ out.old.items) }
{
    let sign = if term.1 < 0 { "-" } else { "" };
    out.extend_from_slice(sign.as_bytes())?;
    put_term(notation, term, out)
}

fn put_later_term(
    notation: Notation,
    term: (i32, i128),
    out: &mut Vec<u8>,
) -> Result<(), AllocError>
    ensures text { OnOk result (out.new.items ≡ out.old.items ++ later_term_text notation term) }
    ensures kept { OnErr result (take (length out.old.items) out.new.items ≡ out.old.items) }
{
    let sign = if term.1 < 0 { "-" } else { "+" };
    out.extend_from_slice(sign.as_bytes())?;
    put_term(notation, term, out)
}

fn put_later_terms(
    notation: Notation,
    terms: &[(i32, i128)],
    out: &mut Vec<u8>,
) -> Result<(), AllocError>
    ensures text { OnOk result (out.new.items ≡ out.old.items ++ flat_map (later_term_text notation) terms.now) }
    ensures kept { OnErr result (take (length out.old.items) out.new.items ≡ out.old.items) }
{
    for term in terms {
        put_later_term(notation, *term, out)?;
    }
    Ok(())
}

/// Appends a polynomial. 0 is written `0`.
#[tactic(auto, unfolding(crate::specs::Notation::polynomial_text))]
pub(crate) fn put_polynomial(
    notation: Notation,
    polynomial: &Laurent,
    out: &mut Vec<u8>,
) -> Result<(), AllocError>
    ensures text { OnOk result (out.new.items ≡ out.old.items ++ polynomial_text notation polynomial.now) }
    ensures kept { OnErr result (take (length out.old.items) out.new.items ≡ out.old.items) }
{
    match polynomial.terms() {
        [] => Ok(out.push(b'0')?),
        [first, later @ ..] => {
            put_first_term(notation, *first, out)?;
            put_later_terms(notation, later, out)
        }
    }
}

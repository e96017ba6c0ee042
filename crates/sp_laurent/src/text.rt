//! Canonical texts of polynomials.
ghost use Rattle.std.specs.Prelude.{◌≡◌, ◌==◌, ◌++◌, [], cond, codes, OnOk, OnErr};
ghost use Rattle.std.specs.Fmt.{decimal};
ghost use Rattle.sp_defs.specs.Text.{is_negative, power_text, term_text, signed_term_text, polynomial_text};
ghost use Rattle.sp_laurent.specs.Grown.{IsGrown};

use crate::Term;
use itoa::Buffer;
use std::alloc::AllocError;

fn print_number(number: u128, out: &mut Vec<u8>) -> Result<(), AllocError>
    ensures ok { OnOk result (out.new.items ≡ out.old.items ++ decimal number) }
    ensures grown { IsGrown out.old.items out.new.items }
{
    out.extend_from_slice(Buffer::new().format(number).as_bytes())
}

// v to a power that isn't 0.
fn print_power(power: i32, out: &mut Vec<u8>) -> Result<(), AllocError>
    ensures ok { OnOk result (out.new.items ≡ out.old.items ++ power_text power) }
    ensures grown { IsGrown out.old.items out.new.items }
{
    if power == 1 {
        return Ok(out.push(b'v')?);
    }
    out.extend_from_slice(b"v^")?;
    out.extend_from_slice(Buffer::new().format(power).as_bytes())
}

// A coefficient in front of a power. 1 isn't written.
fn print_factor(number: u128, out: &mut Vec<u8>) -> Result<(), AllocError>
    ensures ok { OnOk result (out.new.items ≡ out.old.items ++ cond (number == 1) [] (decimal number)) }
    ensures grown { IsGrown out.old.items out.new.items }
{
    if number == 1 {
        Ok(())
    } else {
        print_number(number, out)
    }
}

// A term without its sign. Where memory fails, a part of it may be appended.
#[tactic(auto, unfolding(sp_defs::specs::Text::term_text))]
fn print_unsigned(term: Term, out: &mut Vec<u8>) -> Result<(), AllocError>
    ensures ok { OnOk result (out.new.items ≡ out.old.items ++ term_text term) }
    ensures grown { IsGrown out.old.items out.new.items }
{
    let (power, coefficient) = term;
    if power == 0 {
        return print_number(coefficient.unsigned_abs(), out);
    }
    print_factor(coefficient.unsigned_abs(), out)?;
    print_power(power, out)
}

/// Appends a term without its sign. Where memory fails, the text is as before.
pub fn print_term(term: Term, out: &mut Vec<u8>) -> Result<(), AllocError>
    ensures ok { OnOk result (out.new.items ≡ out.old.items ++ term_text term) }
    ensures grown { IsGrown out.old.items out.new.items }
    ensures err { OnErr result (out.new.items ≡ out.old.items) }
{
    let before = out.len();
    let printed = print_unsigned(term, out);
    if printed.is_err() {
        out.truncate(before);
    }
    printed
}

// The first term, with its sign where it is negative.
fn print_first(term: Term, out: &mut Vec<u8>) -> Result<(), AllocError>
    ensures ok { OnOk result (
        out.new.items ≡ out.old.items ++ (cond (is_negative term) (codes "-") [] ++ term_text term)) }
    ensures grown { IsGrown out.old.items out.new.items }
{
    if term.1 < 0 {
        out.push(b'-')?;
    }
    print_unsigned(term, out)
}

// A later term, with its sign.
fn print_later(term: Term, out: &mut Vec<u8>) -> Result<(), AllocError>
    ensures ok { OnOk result (out.new.items ≡ out.old.items ++ signed_term_text term) }
    ensures grown { IsGrown out.old.items out.new.items }
{
    out.push(if term.1 < 0 { b'-' } else { b'+' })?;
    print_unsigned(term, out)
}

/// Appends the text of the polynomial with these terms. Where memory fails, a part of it may be appended.
pub(crate) fn print_terms(terms: &[Term], out: &mut Vec<u8>) -> Result<(), AllocError>
    ensures ok { OnOk result (out.new.items ≡ out.old.items ++ polynomial_text terms.now) }
    ensures grown { IsGrown out.old.items out.new.items }
{
    let [first, later @ ..] = terms else {
        return Ok(out.push(b'0')?);
    };
    print_first(*first, out)?;
    for term in later {
        print_later(*term, out)?;
    }
    Ok(())
}

//! Polynomials read from their canonical texts: the terms are read from left to right, and the text that they have is
//! compared with what was read.
ghost use Rattle.std.specs.Prelude.{◌≡◌, ◌↔◌, ℕ, ◌^◌, ◌<◌, ◌++◌, List, length, IfOk, OnOk};
ghost use Rattle.std.specs.Prelude.{IsTrue, IsErrOf, MatchResult};
ghost use Rattle.std.specs.List.{AllByRecursion};
ghost use Rattle.sp_defs.specs.Laurent.{Laurent as Polynomial, Term, size, monomial};
ghost use Rattle.sp_defs.specs.Text.{polynomial_text};
ghost use Rattle.sp_laurent.specs.Readable.{IsReadable};
ghost use Rattle.sp_laurent.specs.Pieces.{IsGood, Begins, Ascends};

use crate::reader::read_term;
use crate::sums::push_term;
use crate::text::print_terms;
use crate::{Laurent, ParseFault, Term};
use std::alloc::{AllocError, Global};

// Moves the term in front of a text to the end of `terms`, unless it is 0. Returns what stands behind it.
fn push_next<'a>(terms: &mut Vec<Term>, text: &'a [u8]) -> Result<&'a [u8], ParseFault>
    ensures shorter { IfOk result (λ rest. length rest.now < length text.now) }
    ensures good { OnOk result (AllByRecursion IsGood terms.old.items → AllByRecursion IsGood terms.new.items) }
    ensures reads { (t : Term) (rest : List ℕ) → Begins t rest text.now →
        MatchResult result
        (λ r. (r.now ≡ rest) × (terms.new.items ≡ terms.old.items ++ monomial t.0 t.1))
        (λ fault. fault ≡ ParseFault.Memory) }
{
    let Some(((power, coefficient), rest)) = read_term(text) else {
        return Err(ParseFault::NotLaurent);
    };
    push_term(terms, power, coefficient)?;
    Ok(rest)
}

// The terms of a text, as far as it is one.
fn read_terms(alloc: Global, text: &[u8]) -> Result<Vec<Term>, ParseFault>
    ensures good { IfOk result (λ terms. AllByRecursion IsGood terms.items) }
    ensures reads { (p : Polynomial) → IsReadable p → polynomial_text p ≡ text.now →
        MatchResult result (λ terms. terms.items ≡ p) (λ fault. fault ≡ ParseFault.Memory) }
{
    let mut terms = Vec::new(alloc);
    let mut rest = push_next(&mut terms, text)?;
    while !rest.is_empty() {
        rest = push_next(&mut terms, rest)?;
    }
    Ok(terms)
}

fn ascends(terms: &[Term]) -> bool
    ensures { IsTrue result ↔ Ascends terms.now }
{
    for place in 1..terms.len() {
        if terms[place - 1].0 >= terms[place].0 {
            return false;
        }
    }
    true
}

// Whether the size is within what 127 bits hold.
fn is_small(terms: &[Term]) -> bool
    ensures { IsTrue result ↔ (size terms.now < 2 ^ 127) }
{
    let mut room = i128::MAX as u128;
    for (_power, coefficient) in terms {
        match room.checked_sub(coefficient.unsigned_abs()) {
            Some(left) => room = left,
            None => return false,
        }
    }
    true
}

// Whether these are the terms of a polynomial that is read.
#[tactic(auto, using(crate::proofs::Terms::readable_from, crate::proofs::Terms::readable_test))]
fn is_readable(terms: &[Term]) -> bool
    requires { AllByRecursion IsGood terms.now }
    ensures { IsTrue result ↔ IsReadable terms.now }
{
    ascends(terms) && is_small(terms)
}

// Whether this is the text of the polynomial with these terms.
fn is_text(alloc: Global, terms: &[Term], text: &[u8]) -> Result<bool, AllocError>
    ensures { IfOk result (λ same. IsTrue same ↔ (polynomial_text terms.now ≡ text.now)) }
{
    let mut printed = Vec::new(alloc);
    print_terms(terms, &mut printed)?;
    Ok(printed.as_slice() == text)
}

impl Laurent {
    /// The polynomial of this canonical text, with powers within `READ_LIMIT` and a size of less than 2^127.
    ///
    /// `NotLaurent` where the text is that of no such polynomial.
    pub fn parse(alloc: Global, text: &[u8]) -> Result<Laurent, ParseFault>
        ensures ok { IfOk result (λ p. IsReadable p × (polynomial_text p ≡ text.now)) }
        ensures reads { (p : Polynomial) → IsReadable p → polynomial_text p ≡ text.now →
            MatchResult result (λ q. q ≡ p) (λ fault. fault ≡ ParseFault.Memory) }
        ensures not_laurent { ¬ IsErrOf result ParseFault.Memory → IsErrOf result ParseFault.NotLaurent
            ↔ ((p : Polynomial) → IsReadable p → ¬ (polynomial_text p ≡ text.now)) }
    {
        let terms = read_terms(alloc, text)?;
        if is_readable(&terms) && is_text(alloc, &terms, text)? {
            Ok(Laurent { terms })
        } else {
            Err(ParseFault::NotLaurent)
        }
    }
}

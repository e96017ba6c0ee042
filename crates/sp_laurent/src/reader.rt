//! Terms read from the front of a text. What stands in front of a canonical text is read as the term that it shows.
//! Other texts are read as some term or as none.
ghost use Rattle.std.specs.Prelude.{◌≡◌, ℕ, ℤ, ◌^◌, ◌<◌, ◌≤◌, ◌++◌, List, cond, codes, length, true, false, None, pos};
ghost use Rattle.std.specs.Prelude.{neg_ℤ, unsigned_abs};
ghost use Rattle.std.specs.Prelude.{IfOk, IfSome, IsSomeAnd};
ghost use Rattle.std.specs.Option.{option_copied};
ghost use Rattle.std.specs.Str.Parse.{AllDigits, digits_value};
ghost use Rattle.std.specs.Fmt.{decimal, signed_decimal};
ghost use Rattle.sp_defs.specs.Laurent.{Term};
ghost use Rattle.sp_defs.specs.Text.{is_negative, term_text};
ghost use Rattle.sp_laurent.specs.Readable.{read_limit};
ghost use Rattle.sp_laurent.specs.Pieces.{IsPlain, IsSigned, EndsDigits, behind_mark, power_part, IsSmall, Begins};

use crate::{READ_LIMIT, Term};

// Where the digits in front end.
fn digits_end(text: &[u8]) -> usize
    ensures { EndsDigits text.now result }
{
    text.iter()
        .position(|byte| !byte.is_ascii_digit())
        .unwrap_or(text.len())
}

// The number that digits write, where it is below 2^128.
fn value(digits: &[u8]) -> u128
    ensures { AllDigits 10 digits.now → digits_value 10 digits.now < 2 ^ 128 →
        result ≡ digits_value 10 digits.now }
{
    let mut value = 0u128;
    for digit in digits {
        let unit = u128::from(digit.saturating_sub(b'0'));
        value = value.saturating_mul(10).saturating_add(unit);
    }
    value
}

// The number in front, and what stands behind its digits.
fn read_number(text: &[u8]) -> (u128, &[u8])
    ensures { (n : ℕ) (rest : List ℕ) → n < 2 ^ 128 → IsPlain rest → text.now ≡ decimal n ++ rest →
        (result.0 ≡ n) × (result.1.now ≡ rest) }
{
    let (digits, rest) = text.split_at(digits_end(text));
    (value(digits), rest)
}

// What stands behind the mark in front.
fn behind(text: &[u8], mark: u8) -> Option<&[u8]>
    ensures { option_copied result ≡ behind_mark mark text.now }
{
    match text {
        [first, rest @ ..] if *first == mark => Some(rest),
        _ => None,
    }
}

// Whether a minus stands in front, and what stands behind it.
fn read_minus(text: &[u8]) -> (bool, &[u8])
    ensures minus { (rest : List ℕ) → text.now ≡ codes "-" ++ rest → (result.0 ≡ true) × (result.1.now ≡ rest) }
    ensures none { behind_mark 45 text.now ≡ None → (result.0 ≡ false) × (result.1.now ≡ text.now) }
{
    match behind(text, b'-') {
        Some(rest) => (true, rest),
        None => (false, text),
    }
}

// The whole number in front, where it is one that a power may be.
fn read_exponent(text: &[u8]) -> Option<(i32, &[u8])>
    ensures small { IfSome result (λ r. unsigned_abs r.0 ≤ read_limit) }
    ensures reads { (k : ℤ) (rest : List ℕ) → unsigned_abs k ≤ read_limit → IsPlain rest →
        text.now ≡ signed_decimal k ++ rest → IsSomeAnd result (λ r. (r.0 ≡ k) × (r.1.now ≡ rest)) }
{
    let (negative, digits) = read_minus(text);
    let (number, rest) = read_number(digits);
    if number > READ_LIMIT as u128 {
        return None;
    }
    Some((with_sign(negative, number) as i32, rest))
}

// The number, negated where it is to be negative.
fn with_sign(negative: bool, number: u128) -> i128
    requires { number < 2 ^ 127 }
    ensures { result ≡ cond negative (neg_ℤ (pos number)) (pos number) }
{
    let signed = number as i128;
    if negative { -signed } else { signed }
}

// The power in front, which is 0 where v doesn't stand there.
fn read_power(text: &[u8]) -> Option<(i32, &[u8])>
    ensures small { IfSome result (λ r. unsigned_abs r.0 ≤ read_limit) }
    ensures reads { (k : ℤ) (rest : List ℕ) → unsigned_abs k ≤ read_limit → IsSigned rest →
        text.now ≡ power_part k ++ rest → IsSomeAnd result (λ r. (r.0 ≡ k) × (r.1.now ≡ rest)) }
{
    let Some(mark) = behind(text, b'v') else {
        return Some((0, text));
    };
    match behind(mark, b'^') {
        Some(exponent) => read_exponent(exponent),
        None => Some((1, mark)),
    }
}

// The number in front of a power, which is 1 where v stands there.
fn read_factor(text: &[u8]) -> (u128, &[u8])
    ensures { (t : Term) (rest : List ℕ) → IsSmall t → IsSigned rest → text.now ≡ term_text t ++ rest →
        (result.0 ≡ unsigned_abs t.1) × (result.1.now ≡ power_part t.0 ++ rest) }
{
    match behind(text, b'v') {
        Some(_) => (1, text),
        None => read_number(text),
    }
}

// The term whose text without a sign stands in front.
fn read_unsigned(negative: bool, text: &[u8]) -> Option<(Term, &[u8])>
    ensures small { IfSome result (λ r. unsigned_abs r.0.0 ≤ read_limit) }
    ensures reads { (t : Term) (rest : List ℕ) → IsSmall t → IsSigned rest → negative ≡ is_negative t →
        text.now ≡ term_text t ++ rest → IsSomeAnd result (λ r. (r.0 ≡ t) × (r.1.now ≡ rest)) }
{
    let (size, behind) = read_factor(text);
    let (power, rest) = read_power(behind)?;
    if size > i128::MAX as u128 {
        return None;
    }
    Some(((power, with_sign(negative, size)), rest))
}

// Whether the term in front is negative, and what stands behind its sign.
fn read_sign(text: &[u8]) -> (bool, &[u8])
    ensures { (t : Term) (rest : List ℕ) → Begins t rest text.now →
        (result.0 ≡ is_negative t) × (result.1.now ≡ term_text t ++ rest) }
{
    match behind(text, b'+') {
        Some(rest) => (false, rest),
        None => read_minus(text),
    }
}

/// The term in front, and what stands behind it.
pub(crate) fn read_term(text: &[u8]) -> Option<(Term, &[u8])>
    ensures shorter { IfSome result (λ r. length r.1.now < length text.now) }
    ensures small { IfSome result (λ r. unsigned_abs r.0.0 ≤ read_limit) }
    ensures reads { (t : Term) (rest : List ℕ) → Begins t rest text.now →
        IsSomeAnd result (λ r. (r.0 ≡ t) × (r.1.now ≡ rest)) }
{
    let (negative, plain) = read_sign(text);
    let (term, rest) = read_unsigned(negative, plain)?;
    if rest.len() < text.len() {
        Some((term, rest))
    } else {
        None
    }
}

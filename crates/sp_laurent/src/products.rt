//! Products that are added to a list of terms in place.
ghost use Rattle.std.specs.Prelude.{◌≡◌, ◌+◌, ◌*◌, ◌^◌, ◌<◌, ◌≤◌, ◌<ℤ◌, ◌≤ℤ◌, [], ◌∷◌, unsigned_abs, length, take};
ghost use Rattle.std.specs.Prelude.{drop, pos};
ghost use Rattle.std.specs.Prelude.{IfOk, OnOk};
ghost use Rattle.std.specs.List.{insert, AllByRecursion};
ghost use Rattle.sp_defs.specs.Laurent.{IsLaurent, size, add_term, monomial, plus, times};
ghost use Rattle.sp_defs.specs.Within.{ProductWithin};
ghost use Rattle.sp_laurent.specs.Held.{power_limit};

use crate::Term;
use crate::mirror::push_shifted;
use crate::sums::split_first;
use std::alloc::AllocError;

// The place of the first term, from `start` on, whose power isn't below this one.
fn place_from(terms: &[Term], start: usize, power: i32) -> usize
    requires laurent { IsLaurent terms.now }
    requires start { start ≤ length terms.now }
    requires low { AllByRecursion (λ t. t.0 <ℤ power) (take start terms.now) }
    ensures within { result ≤ length terms.now }
    ensures low { AllByRecursion (λ t. t.0 <ℤ power) (take result terms.now) }
    ensures high { AllByRecursion (λ t. power ≤ℤ t.0) (drop result terms.now) }
{
    let mut place = start;
    while place < terms.len() && terms[place].0 < power {
        place += 1;
    }
    place
}

// Adds one term at the place of its power. Returns the place behind it.
fn add_at(
    terms: &mut Vec<Term>,
    place: usize,
    power: i32,
    coefficient: i128,
) -> Result<usize, AllocError>
    requires laurent { IsLaurent terms.old.items }
    requires place { place ≤ length terms.old.items }
    requires low { AllByRecursion (λ t. t.0 <ℤ power) (take place terms.old.items) }
    requires high { AllByRecursion (λ t. power ≤ℤ t.0) (drop place terms.old.items) }
    requires fits { size terms.old.items + unsigned_abs coefficient < 2 ^ 127 }
    ensures added { OnOk result (terms.new.items ≡ add_term power coefficient terms.old.items) }
    ensures behind { IfOk result (λ next. next ≤ length terms.new.items) }
    ensures low { IfOk result (λ next. AllByRecursion (λ t. t.0 ≤ℤ power) (take next terms.new.items)) }
{
    let (there, _) = split_first(&terms[place..], power);
    let sum = coefficient + there;
    if sum == 0 {
        if there != 0 {
            terms.remove(place);
        }
        return Ok(place);
    }
    if there == 0 {
        insert_at(terms, place, (power, sum))?;
    } else {
        terms[place] = (power, sum);
    }
    Ok(place + 1)
}

// Inserts a term. At the end of the list none has to be moved.
fn insert_at(terms: &mut Vec<Term>, place: usize, term: Term) -> Result<(), AllocError>
    requires { place ≤ length terms.old.items }
    ensures { OnOk result (terms.new.items ≡ insert terms.old.items place term) }
{
    if place == terms.len() {
        terms.push(term)?;
    } else {
        terms.insert(place, term)?;
    }
    Ok(())
}

/// Adds `others * v^power`. To no terms they are appended.
pub fn add_shifted(terms: &mut Vec<Term>, power: i32, others: &[Term]) -> Result<(), AllocError>
    requires laurent { IsLaurent terms.old.items }
    requires others_laurent { IsLaurent others.now }
    requires fits { size terms.old.items + size others.now < 2 ^ 127 }
    requires within { ProductWithin power_limit (monomial power (pos 1)) others.now }
    ensures { OnOk result (terms.new.items ≡ plus terms.old.items (times (monomial power (pos 1)) others.now)) }
{
    if terms.is_empty() {
        push_shifted(terms, others, power)
    } else {
        add_multiple(terms, (power, 1), others)
    }
}

/// Adds a term's multiple of `others`, in one pass over the terms.
pub(crate) fn add_multiple(
    terms: &mut Vec<Term>,
    term: Term,
    others: &[Term],
) -> Result<(), AllocError>
    requires laurent { IsLaurent terms.old.items }
    requires others_laurent { IsLaurent others.now }
    requires fits { size terms.old.items + unsigned_abs term.1 * size others.now < 2 ^ 127 }
    requires within { ProductWithin power_limit (term ∷ []) others.now }
    ensures { OnOk result (terms.new.items ≡ plus terms.old.items (times (term ∷ []) others.now)) }
{
    let mut place = 0;
    for (power, coefficient) in others {
        let sum = term.0 + *power;
        place = place_from(terms, place, sum);
        place = add_at(terms, place, sum, term.1 * *coefficient)?;
    }
    Ok(())
}

// Adds the product of `few` and `many`, in one pass over the terms for each term of `few`.
fn add_each_multiple(terms: &mut Vec<Term>, few: &[Term], many: &[Term]) -> Result<(), AllocError>
    requires laurent { IsLaurent terms.old.items }
    requires few_laurent { IsLaurent few.now }
    requires many_laurent { IsLaurent many.now }
    requires fits { size terms.old.items + size few.now * size many.now < 2 ^ 127 }
    requires within { ProductWithin power_limit few.now many.now }
    ensures { OnOk result (terms.new.items ≡ plus terms.old.items (times few.now many.now)) }
{
    for term in few {
        add_multiple(terms, *term, many)?;
    }
    Ok(())
}

/// Adds the product of `a` and `b`, in one pass over the terms for each term of the shorter one. It takes memory only
/// where the list of terms has to grow.
pub(crate) fn add_product(terms: &mut Vec<Term>, a: &[Term], b: &[Term]) -> Result<(), AllocError>
    requires laurent { IsLaurent terms.old.items }
    requires a_laurent { IsLaurent a.now }
    requires b_laurent { IsLaurent b.now }
    requires fits { size terms.old.items + size a.now * size b.now < 2 ^ 127 }
    requires within { ProductWithin power_limit a.now b.now }
    ensures { OnOk result (terms.new.items ≡ plus terms.old.items (times a.now b.now)) }
{
    if a.len() <= b.len() {
        add_each_multiple(terms, a, b)
    } else {
        add_each_multiple(terms, b, a)
    }
}

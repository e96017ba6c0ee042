// Totals by partitions, and how they grow where a multiple of a vector is added or subtracted.
ghost use Rattle.std.specs.Prelude.{◌≡◌, [], ◌+◌, ◌*◌, ◌^◌, ◌<◌, ◌≤◌, ◌↔◌, ◌∷◌, ◌++◌, map, IsTrue, IfNone};
ghost use Rattle.std.specs.Prelude.{IfSome, IfOk, OnOk};
ghost use Rattle.std.specs.Iterator.{item_count, YieldsFirstBy};
ghost use Rattle.std.specs.List.{AllByRecursion};
ghost use Rattle.sp_defs.specs.Laurent.{size};
ghost use Rattle.sp_fock_law.specs.Joined.{joint, joined};
ghost use Rattle.sp_fock_law.specs.Tally.{constant, constants};
ghost use Rattle.sp_fock.specs.Growth.{grown_along, grown_to, growth_of, growths_of, total_at};
ghost use Rattle.sp_fock.specs.Sum.{AllFit};

use sp_laurent::Laurent;
use sp_partition::Partition;
use std::alloc::{AllocError, Global};
use std::cmp::Ordering;

/// A partition with a total, with a term of a vector, or with both.
#[derive(Drop)]
pub(crate) struct Growth<'a> {
    pub(crate) at: Partition,
    pub(crate) total: u128,
    pub(crate) term: Option<&'a Laurent>,
}

impl<'a> Growth<'a> {
    // Whether the total stays within the limit, where a factor of this size multiplies the term.
    fn fits(&self, factor: u128, limit: u128) -> bool
        ensures { IsTrue result ↔ (grown_to factor self.now ≤ limit) }
    {
        let total = self.total;
        let term = self.term.map_or(0, Laurent::size);
        factor
            .checked_mul(term)
            .and_then(|product| product.checked_add(total))
            .is_some_and(|sum| sum <= limit)
    }

    // What the total grows to.
    fn grown(&self, factor: u128) -> u128
        requires { grown_to factor self.now < 2 ^ 127 }
        ensures { result ≡ grown_to factor self.now }
    {
        match self.term {
            Some(term) => self.total + factor * term.size(),
            None => self.total,
        }
    }
}

/// Goes over the partitions of totals and of the terms of a vector of one degree, ascending.
#[derive(Drop)]
pub(crate) struct Growths<'a> {
    pub(crate) totals: &'a [(Partition, u128)],
    pub(crate) terms: &'a [(Partition, Laurent)],
}

impl<'a> Iterator for Growths<'a> {
    type Item = Growth<'a>;

    ghost next_gives = { YieldsFirstBy growth_of growths_of };

    ghost remaining = { item_count growths_of };

    fn next(&mut self) -> Option<Growth<'a>> {
        match next_growth(self.totals, self.terms) {
            Some((growth, totals, terms)) => {
                self.totals = totals;
                self.terms = terms;
                Some(growth)
            }
            None => None,
        }
    }
}

// The first partition of either list, and what is left of both.
fn next_growth<'a>(
    totals: &'a [(Partition, u128)],
    terms: &'a [(Partition, Laurent)],
) -> Option<
    (
        Growth<'a>,
        &'a [(Partition, u128)],
        &'a [(Partition, Laurent)],
    ),
>
    ensures none { IfNone result (joined (constants totals.now) terms.now ≡ []) }
    ensures some { IfSome result (λ r.
        joined (constants totals.now) terms.now ≡ growth_of r.0 ∷ joined (constants r.1.now) r.2.now) }
{
    match (totals.split_first(), terms.split_first()) {
        (None, None) => None,
        (Some((total, others)), None) => Some((only_total(total), others, terms)),
        (None, Some((term, others))) => Some((only_term(term), totals, others)),
        // Partitions of one degree are in the order of their parts.
        (Some((total, others)), Some((term, other_terms))) => match total.0.compare_parts(&term.0) {
            Ordering::Less => Some((only_total(total), others, terms)),
            Ordering::Equal => Some((total_and_term(total, term), others, other_terms)),
            Ordering::Greater => Some((only_term(term), totals, other_terms)),
        },
    }
}

fn only_total<'a>(total: &'a (Partition, u128)) -> Growth<'a>
    ensures { growth_of result ≡ joint total.now.0 (constant total.now.1) [] }
{
    Growth {
        at: total.0,
        total: total.1,
        term: None,
    }
}

fn only_term<'a>(term: &'a (Partition, Laurent)) -> Growth<'a>
    ensures { growth_of result ≡ joint term.now.0 (constant 0) term.now.1 }
{
    Growth {
        at: term.0,
        total: 0,
        term: Some(&term.1),
    }
}

fn total_and_term<'a>(total: &'a (Partition, u128), term: &'a (Partition, Laurent)) -> Growth<'a>
    ensures { growth_of result ≡ joint total.now.0 (constant total.now.1) term.now.1 }
{
    Growth {
        at: total.0,
        total: total.1,
        term: Some(&term.1),
    }
}

/// The sizes of the terms.
pub(crate) fn sizes_of(
    alloc: Global,
    terms: &[(Partition, Laurent)],
) -> Result<Vec<(Partition, u128)>, AllocError>
    ensures { IfOk result (λ sizes. sizes.items ≡ map (λ t. (t.0, size t.1)) terms.now) }
{
    let mut sizes = Vec::new(alloc);
    for term in terms {
        sizes.push((term.0, term.1.size()))?;
    }
    Ok(sizes)
}

/// Whether no total grows past the limit, where the terms are multiplied by a polynomial of this size.
pub(crate) fn totals_fit(
    totals: &[(Partition, u128)],
    factor: u128,
    terms: &[(Partition, Laurent)],
    limit: u128,
) -> bool
    ensures { IsTrue result ↔ AllFit factor limit (joined (constants totals.now) terms.now) }
{
    for growth in (Growths { totals, terms }) {
        if !growth.fits(factor, limit) {
            return false;
        }
    }
    true
}

// Appends a total, unless it is 0.
fn push_total(
    totals: &mut Vec<(Partition, u128)>,
    at: Partition,
    total: u128,
) -> Result<(), AllocError>
    ensures { OnOk result (totals.new.items ≡ totals.old.items ++ total_at at total) }
{
    if total > 0 {
        totals.push((at, total))?;
    }
    Ok(())
}

/// The totals, each grown by `factor` times the size of the term there.
pub(crate) fn grown_totals(
    alloc: Global,
    totals: &[(Partition, u128)],
    factor: u128,
    terms: &[(Partition, Laurent)],
    limit: u128,
) -> Result<Vec<(Partition, u128)>, AllocError>
    requires most { limit < 2 ^ 127 }
    requires fits { AllFit factor limit (joined (constants totals.now) terms.now) }
    ensures { IfOk result (λ sums. sums.items ≡ grown_along factor (joined (constants totals.now) terms.now)) }
{
    let mut sums = Vec::new(alloc);
    for growth in (Growths { totals, terms }) {
        push_total(&mut sums, growth.at, growth.grown(factor))?;
    }
    Ok(sums)
}

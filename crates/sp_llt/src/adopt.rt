// An entry that is made of a listed row and its shares, with nothing computed anew but the ladder vector and the sum.
ghost use Rattle.std.specs.Prelude.{◌≡◌, ◌+◌, ◌<◌, ◌≤◌, ◌↔◌, [], length, map, take, IsTrue, IfOk, OnOk, IsErrOf};
ghost use Rattle.std.specs.Prelude.{None as Nothing};
ghost use Rattle.std.specs.List.{AllByRecursion};
ghost use Rattle.sp_defs.specs.Laurent.{one, IsBarInvariant};
ghost use Rattle.sp_defs.specs.Power.{fock_vector, vector_of};
ghost use Rattle.sp_defs.specs.Row.{regular_row, Row as IsRowOutcome};
ghost use Rattle.sp_llt.specs.Adopting.{AreListedShares, AreEarlierRows, HasRank, factors_at, listed_weight};
ghost use Rattle.sp_llt.specs.Adopting.{IsRightlyListed, IsLeft, Rising, left_without};
ghost use Rattle.sp_llt.specs.Found.{IsWhole};
ghost use Rattle.sp_llt.specs.Place.{label, labels, place, IsKey};
ghost use Rattle.sp_llt.specs.Refusals.{outcome_at};
ghost use Rattle.sp_llt.specs.Shares.{given_shares};

use crate::entry::Found;
use crate::ladder::ladder_slots;
use crate::same::{is_one, is_same_vector};
use crate::search::stray_in;
use crate::{AdoptFault, Ctx, Entry, Share};
use sp_core::Piece;
use sp_fock::{FockFault, Vector};
use sp_partition::Partition;
use sp_power::PowerFault;
use sp_slots::{Indexed, Slots};
use std::alloc::{AllocError, Global};

impl Entry {
    // The entry with these parts of its row.
    fn whole(ctx: &Ctx, k: usize, row: Indexed, shares: Vec<Share>) -> Entry
        requires rank { k < length (labels ctx.now) }
        requires whole { IsWhole ctx.now (label ctx.now k) row shares.items Nothing }
        ensures { result ≡ place ctx.now k }
    {
        let found = Found::Whole {
            row,
            shares,
            stray: None,
        };
        Entry::new(ctx.key(), k, ctx.regulars()[k], found)
    }

    /// The entry of a rank, from its listed row and the shares of earlier rows in its ladder vector.
    ///
    /// `shares` have ranks below `k`, strictly descending, and aren't 0. `earlier` are entries of this context that
    /// have rows, by strictly ascending ranks below `k`, among them that of each share. It is refused as too large
    /// where a coefficient of a partial ladder vector passes the limit or, at some partition, the size of the ladder
    /// vector's coefficient and the products of the sizes of the shares and of their rows' coefficients sum up to more.
    /// Otherwise it is wrong where the row or the shares aren't those of the rank.
    pub fn adopt(
        alloc: Global,
        ctx: &Ctx,
        k: usize,
        shares: &[Share],
        row: &Vector,
        earlier: &[Entry],
    ) -> Result<Entry, AdoptFault>
        requires rank { k < length (labels ctx.now) }
        requires degree { row.now.degree ≡ ctx.now.degree }
        requires shares { AreListedShares k shares.now }
        requires earlier { AreEarlierRows ctx.now k earlier.now }
        requires listed { AllByRecursion (λ s. HasRank earlier.now s.rank) shares.now }
        ensures entry { IfOk result (λ entry. entry ≡ place ctx.now k) }
        ensures outcome { OnOk result (outcome_at (place ctx.now k) ≡ IsRowOutcome) }
        ensures row { OnOk result (row.now ≡ fock_vector ctx.now.degree (regular_row ctx.now.e (label ctx.now k))) }
        ensures shares { OnOk result (shares.now ≡ given_shares ctx.now.e (label ctx.now k) 0) }
        ensures fits { OnOk result (listed_weight ctx.now k shares.now ≤ ctx.now.limit) }
        ensures right { OnOk result (IsRightlyListed ctx.now k shares.now row.now) }
        ensures too_large { IsErrOf result AdoptFault.TooLarge → ctx.now.limit < listed_weight ctx.now k shares.now }
        ensures wrong { IsErrOf result AdoptFault.Wrong → (listed_weight ctx.now k shares.now ≤ ctx.now.limit)
            × ¬ IsRightlyListed ctx.now k shares.now row.now }
    {
        let _key = ctx.regulars();
        let _held = row.pairs();
        let slots = match slots_left(alloc, ctx, k, shares, earlier) {
            Ok(slots) => slots,
            Err(fault) => return Err(fault),
        };
        let left = slots.into_indexed(alloc, ctx.all())?;
        if !is_rightly_listed(ctx, k, shares, row, left.vector()) {
            return Err(AdoptFault::Wrong);
        }
        let shares = copied(alloc, shares)?;
        Ok(Entry::whole(ctx, k, left, shares))
    }
}

// Whether the listed column is right, where `left` is what is left of the ladder vector.
fn is_rightly_listed(ctx: &Ctx, k: usize, shares: &[Share], row: &Vector, left: &Vector) -> bool
    requires rank { k < length (labels ctx.now) }
    requires degree { row.now.degree ≡ ctx.now.degree }
    requires left { left.now ≡ fock_vector ctx.now.degree
        (left_without ctx.now.e (label ctx.now k) (factors_at ctx.now shares.now)) }
    ensures { IsTrue result ↔ IsRightlyListed ctx.now k shares.now row.now }
{
    let _held = row.pairs();
    let mu = &ctx.regulars()[k];
    if !is_one_at(row, mu) {
        return false;
    }
    if stray_in(row, mu).is_some() {
        return false;
    }
    if !are_invariant(shares) {
        return false;
    }
    is_same_vector(left, row)
}

// What is left of the ladder vector without the shares times their rows.
fn slots_left(
    alloc: Global,
    ctx: &Ctx,
    k: usize,
    shares: &[Share],
    earlier: &[Entry],
) -> Result<Slots, AdoptFault>
    requires rank { k < length (labels ctx.now) }
    requires shares { AreListedShares k shares.now }
    requires earlier { AreEarlierRows ctx.now k earlier.now }
    requires listed { AllByRecursion (λ s. HasRank earlier.now s.rank) shares.now }
    ensures left { IfOk result (λ slots. IsLeft ctx.now (label ctx.now k) (factors_at ctx.now shares.now) slots) }
    ensures too_large { IsErrOf result AdoptFault.TooLarge → ctx.now.limit < listed_weight ctx.now k shares.now }
    ensures wrong { ¬ IsErrOf result AdoptFault.Wrong }
{
    let mut slots = match first_slots(alloc, ctx, k) {
        Ok(slots) => slots,
        Err(fault) => return Err(fault),
    };
    for place in 0..shares.len() {
        slots = match without_share(alloc, ctx, k, shares, place, earlier, slots) {
            Ok(next) => next,
            Err(fault) => return Err(fault),
        };
    }
    Ok(slots)
}

// The ladder vector, in slots.
fn first_slots(alloc: Global, ctx: &Ctx, k: usize) -> Result<Slots, AdoptFault>
    requires { k < length (labels ctx.now) }
    ensures left { IfOk result (λ slots. IsLeft ctx.now (label ctx.now k) [] slots) }
    ensures too_large { IsErrOf result AdoptFault.TooLarge → ctx.now.limit < listed_weight ctx.now k [] }
    ensures wrong { ¬ IsErrOf result AdoptFault.Wrong }
    ensures key { IsKey ctx.now }
{
    match ladder_slots(alloc, ctx, k) {
        Ok(slots) => Ok(slots),
        Err(PowerFault::TooLarge) => Err(AdoptFault::TooLarge),
        Err(PowerFault::Memory) => Err(AdoptFault::Memory),
    }
}

// The slots once the share of a place, times its row, is taken off too.
fn without_share(
    alloc: Global,
    ctx: &Ctx,
    k: usize,
    shares: &[Share],
    place: usize,
    earlier: &[Entry],
    slots: Slots,
) -> Result<Slots, AdoptFault>
    requires rank { k < length (labels ctx.now) }
    requires shares { AreListedShares k shares.now }
    requires earlier { AreEarlierRows ctx.now k earlier.now }
    requires listed { AllByRecursion (λ s. HasRank earlier.now s.rank) shares.now }
    requires place { place < length shares.now }
    requires left { IsLeft ctx.now (label ctx.now k) (factors_at ctx.now (take place shares.now)) slots }
    ensures left { IfOk result (λ slots.
        IsLeft ctx.now (label ctx.now k) (factors_at ctx.now (take (place + 1) shares.now)) slots) }
    ensures too_large { IsErrOf result AdoptFault.TooLarge →
        ctx.now.limit < listed_weight ctx.now k (take (place + 1) shares.now) }
    ensures wrong { ¬ IsErrOf result AdoptFault.Wrong }
{
    let share = &shares[place];
    let entry = entry_of(ctx, earlier, share.rank);
    let Some(row) = entry.indexed_row() else {
        unreachable!();
    };
    match slots.subtract(alloc, &share.alpha, row, ctx.key().limit) {
        Ok(slots) => Ok(slots),
        Err(FockFault::TooLarge) => Err(AdoptFault::TooLarge),
        Err(FockFault::Memory) => Err(AdoptFault::Memory),
    }
}

// The entry of a rank.
fn entry_of<'a>(ctx: &Ctx, earlier: &'a [Entry], rank: usize) -> &'a Entry
    requires of { AllByRecursion (λ p. p.key ≡ ctx.now) earlier.now }
    requires rising { Rising (map (λ p. p.rank) earlier.now) }
    requires listed { HasRank earlier.now rank }
    ensures { result.now ≡ place ctx.now rank }
{
    match earlier.binary_search_by_key(&rank, |entry| entry.number()) {
        Ok(found) => &earlier[found],
        Err(_) => unreachable!(),
    }
}

// Whether the coefficient at a partition is 1.
fn is_one_at(row: &Vector, mu: &Partition) -> bool
    ensures { IsTrue result ↔ (vector_of row.now.entries mu.now ≡ one) }
{
    match row.coefficient(mu) {
        Some(polynomial) => is_one(polynomial),
        None => false,
    }
}

fn are_invariant(shares: &[Share]) -> bool
    ensures { IsTrue result ↔ AllByRecursion (λ s. IsBarInvariant s.alpha) shares.now }
{
    shares.iter().all(|share| share.alpha.is_bar_invariant())
}

// The shares in memory of their own.
fn copied(alloc: Global, shares: &[Share]) -> Result<Vec<Share>, AllocError>
    ensures { IfOk result (λ copies. copies.items ≡ shares.now) }
{
    let mut copies = Vec::with_capacity(alloc, shares.len())?;
    for share in shares {
        copies.push(Share {
            rank: share.rank,
            alpha: share.alpha.copy(alloc)?,
        })?;
    }
    Ok(copies)
}

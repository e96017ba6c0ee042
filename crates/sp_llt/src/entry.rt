// The finished row of one e-regular partition.

use crate::{Ctx, Refused, Share};
use sp_core::{Key, Piece};
use sp_fock::Vector;
use sp_partition::Partition;
use sp_slots::Indexed;
use std::marker::Model;

/// The outcome of one e-regular partition: its regular row and shares, or that the row is too large.
#[derive(Drop)]
pub struct Entry {
    key: Key,
    rank: usize,
    mu: Partition,
    found: Found,
}

/// What is kept of a row.
#[derive(Drop)]
pub(crate) enum Found {
    TooLarge,
    /// The regular row, the shares that aren't 0, by descending ranks, and the greatest other partition whose
    /// coefficient isn't in vZ[v].
    Whole {
        row: Indexed,
        shares: Vec<Share>,
        stray: Option<Partition>,
    },
}

impl Model for Entry {
    ghost use Rattle.sp_llt.specs.Place.{Place, place};
    ghost use Rattle.sp_llt.specs.Found.{IsKept};

    ghost Value = { Place };

    ghost view = { λ a. place a.key a.rank };

    ghost invariant = { λ a. IsKept a.key a.rank a.mu a.found };
}

impl Piece for Entry {
    ghost key = { λ a. a.key };

    ghost number = { λ a. a.rank };

    fn key(&self) -> Key {
        self.key
    }

    fn number(&self) -> usize {
        self.rank
    }
}

impl Entry {
    ghost use Rattle.std.specs.Prelude.{◌≡◌, ◌↔◌, IsTrue, IsNone, IfSome, IfOk, OnOk};
    ghost use Rattle.std.specs.List.{AllByRecursion};
    ghost use Rattle.sp_defs.specs.Power.{fock_vector};
    ghost use Rattle.sp_defs.specs.Row.{regular_row, IsRow, TooLarge as IsTooLarge};
    ghost use Rattle.sp_llt.specs.Found.{IsKept, outcome_told};
    ghost use Rattle.sp_llt.specs.Laws.{ObeysRowLaw, ObeysShareLaw};
    ghost use Rattle.sp_llt.specs.Place.{label, place, IsPlace};
    ghost use Rattle.sp_llt.specs.Refusals.{outcome_at};
    ghost use Rattle.sp_llt.specs.Shares.{told_shares};

    pub(crate) fn new(key: Key, rank: usize, mu: Partition, found: Found) -> Entry
        requires { IsKept key rank mu found }
        ensures { result ≡ place key rank }
    {
        Entry {
            key,
            rank,
            mu,
            found,
        }
    }

    /// The partition of the entry's rank. It takes no memory.
    pub fn mu(&self) -> &Partition
        ensures value { result.now ≡ label self.now.key self.now.rank }
        ensures held { IsPlace self.now }
    {
        &self.mu
    }

    /// Whether the entry is that of the context and the rank. It takes no memory.
    pub fn is_of(&self, ctx: &Ctx, k: usize) -> bool
        ensures { IsTrue result ↔ (self.now ≡ place ctx.now k) }
    {
        self.key == ctx.key() && self.rank == k
    }

    /// The row, or why there is none. It takes no memory.
    pub fn row(&self) -> Result<&Vector, Refused>
        ensures outcome { outcome_told result ≡ outcome_at self.now }
        ensures row { IfOk result (λ w. w.now ≡ fock_vector self.now.key.degree
            (regular_row self.now.key.e (label self.now.key self.now.rank))) }
        ensures is_row { OnOk result (IsRow self.now.key.e (label self.now.key self.now.rank)
            (regular_row self.now.key.e (label self.now.key self.now.rank))) }
    {
        match &self.found {
            Found::TooLarge => Err(Refused::TooLarge),
            Found::Whole { row, stray, .. } => match stray {
                Some(at) => Err(Refused::Stray { at: *at }),
                None => Ok(row.vector()),
            },
        }
    }

    /// The regular row, which is there also where a partition is stray. None exactly where the row is too large.
    /// It takes no memory.
    pub fn regular_row(&self) -> Option<&Vector>
        ensures none { IsNone result ↔ (outcome_at self.now ≡ IsTooLarge) }
        ensures some { IfSome result (λ w. w.now ≡ fock_vector self.now.key.degree
            (regular_row self.now.key.e (label self.now.key self.now.rank))) }
        ensures law { IfSome result (λ w. ObeysRowLaw self.now w.now.entries) }
    {
        match &self.found {
            Found::TooLarge => None,
            Found::Whole { row, .. } => Some(row.vector()),
        }
    }

    /// The regular row, with the places of its partitions among all of the degree. It takes no memory.
    pub(crate) fn indexed_row(&self) -> Option<&Indexed>
        ensures none { IsNone result ↔ (outcome_at self.now ≡ IsTooLarge) }
        ensures some { IfSome result (λ w. w.now ≡ fock_vector self.now.key.degree
            (regular_row self.now.key.e (label self.now.key self.now.rank))) }
    {
        match &self.found {
            Found::TooLarge => None,
            Found::Whole { row, .. } => Some(row),
        }
    }

    /// The shares that aren't 0, by descending ranks. Empty where the row is too large. It takes no memory.
    pub fn shares(&self) -> &[Share]
        ensures shares { result.now ≡
            told_shares self.now.key.e self.now.key.limit (label self.now.key self.now.rank) }
        ensures law { AllByRecursion (ObeysShareLaw self.now) result.now }
    {
        match &self.found {
            Found::TooLarge => &[],
            Found::Whole { shares, .. } => shares,
        }
    }
}

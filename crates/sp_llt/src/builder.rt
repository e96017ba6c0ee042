// How the entry of one rank is made from earlier entries.
ghost use Rattle.std.specs.Prelude.{◌≡◌, ◌≢◌, ◌<◌, IfOk, IfSome, None as Nothing, Some as Just, true, false, length};
ghost use Rattle.sp_defs.specs.Row.{outcome, TooLarge as IsTooLarge};
ghost use Rattle.sp_defs.specs.Statements.{SameContent};
ghost use Rattle.sp_outcome_law.specs.Asking.{asked, next_rank, is_past, is_too_large};
ghost use Rattle.sp_llt.specs.Place.{label, labels, place, progress, IsProgress};
ghost use Rattle.sp_llt.specs.Reached.{IsBuilder, IsOpen, IsWithin, row_at, tally_at};
ghost use Rattle.sp_llt.specs.Refusals.{outcome_at};
ghost use Rattle.sp_llt.specs.Shares.{given_shares};

use crate::entry::Found;
use crate::ladder::ladder_slots;
use crate::search::{next_share, stray_in};
use crate::{Ctx, Entry, Share};
use sp_fock::FockFault;
use sp_laurent::LaurentFault;
use sp_power::PowerFault;
use sp_slots::{Indexed, Slots};
use std::alloc::{AllocError, Global};
use std::marker::Model;

/// Makes the entry of one rank. It asks for the earlier entries that it needs, by falling ranks.
#[derive(Drop)]
pub struct Builder<'a> {
    alloc: Global,
    ctx: &'a Ctx,
    rank: usize,
    reached: usize,
    state: State,
}

/// How far the row has come.
#[derive(Drop)]
pub(crate) enum State {
    /// Another row is asked for.
    Open(Unfinished),
    /// No row is to come.
    Decided(Found),
}

/// The ladder vector without the given shares times their rows, the given shares, and the next one.
#[derive(Drop)]
pub(crate) struct Unfinished {
    pub(crate) slots: Slots,
    pub(crate) shares: Vec<Share>,
    pub(crate) next: Share,
}

impl<'a> Model for Builder<'a> {
    ghost use Rattle.sp_llt.specs.Place.{Progress, progress};
    ghost use Rattle.sp_llt.specs.Reached.{IsBuilder};

    ghost Value = { Progress };

    ghost view = { λ b. progress b.ctx.now b.rank b.reached };

    ghost invariant = { λ b. IsBuilder b.ctx.now b.rank b.reached b.state };
}

impl<'a> Builder<'a> {
    /// Begins the entry of a rank.
    pub fn begin(alloc: Global, ctx: &'a Ctx, k: usize) -> Result<Builder<'a>, AllocError>
        requires { k < length (labels ctx.now) }
        ensures { IfOk result (λ b. b ≡ progress ctx.now k k) }
    {
        match ladder_slots(alloc, ctx, k) {
            Ok(slots) => Builder::reach(alloc, ctx, k, k, slots, Vec::new(alloc)),
            Err(PowerFault::TooLarge) => Ok(Builder::too_large(alloc, ctx, k, k)),
            Err(PowerFault::Memory) => Err(AllocError),
        }
    }

    /// The rank of the earlier entry that comes next. None exactly where the outcome is decided. It takes no memory.
    pub fn ask(&self) -> Option<usize>
        ensures asks { result ≡
            asked self.now.key.e self.now.key.limit (label self.now.key self.now.rank) self.now.reached }
        // where the row isn't too large, these are the ranks of all shares that aren't 0
        ensures shares { outcome self.now.key.e self.now.key.limit (label self.now.key self.now.rank) ≢ IsTooLarge →
            result ≡ next_rank self.now.key.e (label self.now.key self.now.rank) self.now.reached }
        ensures falls { IfSome result (λ j. j < self.now.reached) }
        ensures earlier { IfSome result (λ j. j < self.now.rank) }
        ensures content { IfSome result
            (λ j. SameContent self.now.key.e (label self.now.key self.now.rank) (label self.now.key j)) }
        ensures held { IsProgress self.now }
    {
        match &self.state {
            State::Open(unfinished) => Some(unfinished.next.rank),
            State::Decided(_) => None,
        }
    }

    /// Takes the earlier entry that was asked for.
    pub fn give(self, entry: &Entry) -> Result<Builder<'a>, AllocError>
        requires asked { asked self.key.e self.key.limit (label self.key self.rank) self.reached ≡ Just entry.now.rank }
        requires entry { entry.now.key ≡ self.key }
        ensures { IfOk result (λ b. b ≡ progress self.entry.key self.entry.rank entry.now.rank) }
    {
        let Builder {
            alloc,
            ctx,
            rank,
            reached,
            state,
        } = self;
        let State::Open(unfinished) = state else {
            unreachable!();
        };
        match entry.indexed_row() {
            Some(row) => Builder::take_off(alloc, ctx, rank, reached, unfinished, row),
            None => Ok(Builder::too_large(alloc, ctx, rank, unfinished.next.rank)),
        }
    }

    /// The entry, once the outcome is decided. It takes no memory.
    pub fn finish(self) -> Entry
        requires { asked self.key.e self.key.limit (label self.key self.rank) self.reached ≡ Nothing }
        ensures { result ≡ place self.entry.key self.entry.rank }
    {
        let Builder {
            alloc: _,
            ctx,
            rank,
            reached: _,
            state,
        } = self;
        match state {
            State::Open(_) => unreachable!(),
            State::Decided(found) => Entry::new(ctx.key(), rank, ctx.regulars()[rank], found),
        }
    }

    // The builder once the row of the next share has been taken off.
    fn take_off(
        alloc: Global,
        ctx: &'a Ctx,
        rank: usize,
        reached: usize,
        unfinished: Unfinished,
        row: &Indexed,
    ) -> Result<Builder<'a>, AllocError>
        requires place { IsProgress (progress ctx.now rank reached) }
        requires asks { IsOpen ctx.now (label ctx.now rank) reached unfinished }
        requires row { row.now ≡ row_at (place ctx.now unfinished.next.rank) }
        requires fits { is_too_large (outcome_at (place ctx.now unfinished.next.rank)) ≡ false }
        ensures { IfOk result (λ b. b ≡ progress ctx.now rank unfinished.next.rank) }
    {
        let Unfinished {
            slots,
            shares,
            next,
        } = unfinished;
        let reached = next.rank;
        match slots.subtract(alloc, &next.alpha, row, ctx.key().limit) {
            Ok(slots) => {
                let mut shares = shares;
                shares.push(next)?;
                Builder::reach(alloc, ctx, rank, reached, slots, shares)
            }
            Err(FockFault::TooLarge) => Ok(Builder::too_large(alloc, ctx, rank, reached)),
            Err(FockFault::Memory) => Err(AllocError),
        }
    }

    // The builder whose row is too large.
    fn too_large(alloc: Global, ctx: &'a Ctx, rank: usize, reached: usize) -> Builder<'a>
        requires place { IsProgress (progress ctx.now rank reached) }
        requires past { is_past ctx.now.e ctx.now.limit (label ctx.now rank) reached ≡ true }
        ensures { result ≡ progress ctx.now rank reached }
    {
        Builder {
            alloc,
            ctx,
            rank,
            reached,
            state: State::Decided(Found::TooLarge),
        }
    }

    // The builder that has been given all rows with shares from the rank `reached` on.
    fn reach(
        alloc: Global,
        ctx: &'a Ctx,
        rank: usize,
        reached: usize,
        slots: Slots,
        shares: Vec<Share>,
    ) -> Result<Builder<'a>, AllocError>
        requires place { IsProgress (progress ctx.now rank reached) }
        requires within { IsWithin ctx.now (label ctx.now rank) reached }
        requires left { slots ≡ tally_at ctx.now (label ctx.now rank) reached }
        requires given { shares.items ≡ given_shares ctx.now.e (label ctx.now rank) reached }
        ensures { IfOk result (λ b. b ≡ progress ctx.now rank reached) }
    {
        match next_share(alloc, ctx.places(), &slots, reached, ctx.key().limit) {
            Ok(Some(next)) => Ok(Builder {
                alloc,
                ctx,
                rank,
                reached,
                state: State::Open(Unfinished {
                    slots,
                    shares,
                    next,
                }),
            }),
            Ok(None) => {
                let row = slots.into_indexed(alloc, ctx.all())?;
                Ok(Builder::whole(alloc, ctx, rank, reached, row, shares))
            }
            Err(LaurentFault::TooLarge) => Ok(Builder::too_large(alloc, ctx, rank, reached)),
            Err(LaurentFault::Memory) => Err(AllocError),
        }
    }

    // The builder whose shares have all been given.
    fn whole(
        alloc: Global,
        ctx: &'a Ctx,
        rank: usize,
        reached: usize,
        row: Indexed,
        shares: Vec<Share>,
    ) -> Builder<'a>
        requires place { IsProgress (progress ctx.now rank reached) }
        requires within { IsWithin ctx.now (label ctx.now rank) reached }
        requires last { next_rank ctx.now.e (label ctx.now rank) reached ≡ Nothing }
        requires left { row ≡ (tally_at ctx.now (label ctx.now rank) reached).vector }
        requires given { shares.items ≡ given_shares ctx.now.e (label ctx.now rank) reached }
        ensures { result ≡ progress ctx.now rank reached }
    {
        let stray = stray_in(row.vector(), &ctx.regulars()[rank]);
        Builder {
            alloc,
            ctx,
            rank,
            reached,
            state: State::Decided(Found::Whole { row, shares, stray }),
        }
    }
}

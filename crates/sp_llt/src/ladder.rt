// The ladder vector of a rank.
ghost use Rattle.std.specs.Prelude.{◌≡◌, ◌<◌, ◌≤◌, length, IfOk, OnOk, IsErrOf};
ghost use Rattle.sp_defs.specs.Ladder.{ladder_weight};
ghost use Rattle.sp_llt.specs.Place.{label, labels, IsKey};
ghost use Rattle.sp_llt.specs.Places.{scope_of};
ghost use Rattle.sp_llt.specs.Reached.{ladder_tally};

use crate::Ctx;
use sp_ladder::ladder_vector;
use sp_power::PowerFault;
use sp_ranks::{Moves, ladder_vector as ladder_vector_over_ranks};
use sp_slots::Slots;
use std::alloc::Global;

// The ladder vector of the partition of a rank, in slots.
pub(crate) fn ladder_slots(alloc: Global, ctx: &Ctx, k: usize) -> Result<Slots, PowerFault>
    requires { k < length (labels ctx.now) }
    ensures tally { IfOk result (λ slots. slots ≡ ladder_tally ctx.now.e (label ctx.now k)) }
    ensures fits { OnOk result (ladder_weight ctx.now.e (label ctx.now k) ≤ ctx.now.limit) }
    ensures too_large { IsErrOf result PowerFault.TooLarge →
        ctx.now.limit < ladder_weight ctx.now.e (label ctx.now k) }
    ensures key { IsKey ctx.now }
{
    match ctx.moves() {
        Some(moves) => by_moves(alloc, ctx, moves, k),
        None => by_partitions(alloc, ctx, k),
    }
}

// It is made over ranks, by a table of moves.
fn by_moves(alloc: Global, ctx: &Ctx, moves: &Moves, k: usize) -> Result<Slots, PowerFault>
    requires moves { moves.now ≡ scope_of ctx.now }
    requires rank { k < length (labels ctx.now) }
    ensures tally { IfOk result (λ slots. slots ≡ ladder_tally ctx.now.e (label ctx.now k)) }
    ensures fits { OnOk result (ladder_weight ctx.now.e (label ctx.now k) ≤ ctx.now.limit) }
    ensures too_large { IsErrOf result PowerFault.TooLarge →
        ctx.now.limit < ladder_weight ctx.now.e (label ctx.now k) }
    ensures key { IsKey ctx.now }
{
    let key = ctx.key();
    match ladder_vector_over_ranks(alloc, moves, key.e, &ctx.regulars()[k], key.limit) {
        Ok(vector) => Ok(Slots::from_ranks(alloc, ctx.all(), &vector)?),
        Err(fault) => Err(fault),
    }
}

// It is made of partitions.
fn by_partitions(alloc: Global, ctx: &Ctx, k: usize) -> Result<Slots, PowerFault>
    requires { k < length (labels ctx.now) }
    ensures tally { IfOk result (λ slots. slots ≡ ladder_tally ctx.now.e (label ctx.now k)) }
    ensures fits { OnOk result (ladder_weight ctx.now.e (label ctx.now k) ≤ ctx.now.limit) }
    ensures too_large { IsErrOf result PowerFault.TooLarge →
        ctx.now.limit < ladder_weight ctx.now.e (label ctx.now k) }
    ensures key { IsKey ctx.now }
{
    let key = ctx.key();
    match ladder_vector(alloc, key.e, &ctx.regulars()[k], key.limit) {
        Ok(vector) => Ok(Slots::from_vector(alloc, ctx.all(), &vector)?),
        Err(fault) => Err(fault),
    }
}

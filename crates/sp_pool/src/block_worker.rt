// What one worker does, block by block.
ghost use Rattle.std.specs.Prelude.{◌≡◌, ◌<◌, ◌+◌, All, Contains, IfSome, Some as Just, get_or, length, slice_get};
ghost use Rattle.std.specs.Arc.{arc_value};
ghost use Rattle.sp_cells.specs.Known.{IsOf};
ghost use Rattle.sp_llt.specs.Place.{label, labels, place, progress};
ghost use Rattle.sp_outcome_law.specs.Asking.{asked};
ghost use Rattle.sp_pool.specs.Blocks.{IsAtLeastAt};
ghost use Rattle.sp_pool.specs.Tables.{IsFor};

use crate::table::Table;
use crate::worker::{packed, seat_given, seat_published, show};
use crate::{Gate, Member};
use sp_board::{Awaited, Claim, Seat};
use sp_cells::{Parcel, Pass};
use sp_llt::{Builder, Ctx, entry_alone};
use std::alloc::Global;
use std::sync::{Arc, Wait};

/// Goes through the tables in order, with a seat at each. It doesn't wait until the rows of a table are done.
pub(crate) fn work_through<R: Wait, G: Gate>(
    rt: &R,
    alloc: Global,
    ctx: &Ctx,
    tables: &[Table],
    seats: Vec<Seat>,
    gate: &G,
)
    requires { All (IsFor ctx.now) tables.now }
{
    let mut seats = seats.into_iter();
    for table in tables {
        let Some(seat) = seats.next() else {
            return;
        };
        work(rt, alloc, ctx, table, seat, gate);
    }
}

/// Claims rows of a block and makes them, until there is none left to claim. Without memory for a pass it claims none.
pub(crate) fn work<R: Wait, G: Gate>(
    rt: &R,
    alloc: Global,
    ctx: &Ctx,
    table: &Table,
    seat: Seat,
    gate: &G,
)
    requires { IsFor ctx.now table.now }
{
    let Ok(mut pass) = table.cells.pass(alloc) else {
        return;
    };
    let mut seat = seat;
    for _ in rt.forever() {
        let Ok(claim) = table.desk.claim(rt, seat) else {
            return;
        };
        seat = one_row(rt, alloc, ctx, table, &mut pass, claim, gate);
    }
}

// Makes the claimed row, shows it and publishes it. Where it can't be made, it is lost, and so is a claim of no row of
// the block, which the lock doesn't rule out.
fn one_row<R: Wait, G: Gate>(
    rt: &R,
    alloc: Global,
    ctx: &Ctx,
    table: &Table,
    pass: &mut Pass<Member>,
    claim: Claim,
    gate: &G,
) -> Seat
    requires table { IsFor ctx.now table.now }
    requires of { IsOf table.now.cells pass.old }
    requires fresh { claim.last ≡ claim.row }
    ensures { IsOf table.now.cells pass.new }
{
    let mut claim = claim;
    let w = claim.worker();
    let at = claim.row();
    let Some(rank) = table.ranks.get(at).copied() else {
        return seat_given(table.desk.lose(rt, claim));
    };
    gate.at_claim(w, rank);
    let Some((piece, parcel)) = make(rt, alloc, ctx, table, pass, &mut claim, rank) else {
        return seat_given(table.desk.lose(rt, claim));
    };
    gate.at_publish(w, rank);
    show(&table.cells, pass, at, parcel);
    seat_published(table.desk.publish(rt, claim, piece))
}

// The claimed row, which is that of a rank, from the earlier rows that it asks for, and a parcel with it.
fn make<R: Wait>(
    rt: &R,
    alloc: Global,
    ctx: &Ctx,
    table: &Table,
    pass: &mut Pass<Member>,
    claim: &mut Claim,
    rank: usize,
) -> Option<(Arc<Member>, Parcel<Member>)>
    requires table { IsFor ctx.now table.now }
    requires of { IsOf table.now.cells pass.old }
    requires fresh { claim.old.last ≡ claim.old.row }
    requires rank { slice_get table.now.ranks.items claim.old.row ≡ Just rank }
    ensures of { IsOf table.now.cells pass.new }
    ensures entry { IfSome result (λ r. arc_value r.1.entry ≡ place ctx.now rank) }
    ensures at { IfSome result (λ r. r.1.place ≡ claim.old.row) }
{
    let at = claim.row();
    let mut builder = Builder::begin(alloc, ctx, rank).ok()?;
    while let Some(j) = builder.ask() {
        builder = give_earlier(rt, alloc, ctx, table, pass, claim, j, builder)?;
    }
    let entry = Arc::new(alloc, builder.finish()).ok()?;
    let core = table.core;
    packed(
        alloc,
        Member {
            entry,
            core,
            place: at,
        },
    )
}

// Gives the builder row j, which is of the same block: from its cell, or else once the desk has it.
fn give_earlier<'a, R: Wait>(
    rt: &R,
    alloc: Global,
    ctx: &Ctx,
    table: &Table,
    pass: &mut Pass<Member>,
    claim: &mut Claim,
    j: usize,
    builder: Builder<'a>,
) -> Option<Builder<'a>>
    requires table { IsFor ctx.now table.now }
    requires of { IsOf table.now.cells pass.old }
    requires key { builder.key ≡ ctx.now }
    requires asked { asked builder.key.e builder.key.limit (label builder.key builder.rank) builder.reached ≡ Just j }
    requires row { j < length (labels builder.key) }
    requires there { Contains table.now.ranks.items j }
    requires earlier { IsAtLeastAt table.now.ranks.items claim.old.last (j + 1) }
    ensures of { IsOf table.now.cells pass.new }
    ensures last { IfSome result (λ b. IsAtLeastAt table.now.ranks.items claim.new.last j) }
    ensures given { IfSome result (λ b. b ≡ progress ctx.now builder.entry.rank j) }
{
    let at = table.place_of(j);
    if let Some(member) = table.cells.peek(pass, at) {
        return give_member(alloc, ctx, member, j, builder);
    }
    let Awaited::Row(member) = table.desk.await_row(rt, claim, at) else {
        return None;
    };
    give_member(alloc, ctx, &member, j, builder)
}

// Gives the builder the entry of a member, if it is row j, or else one that is made here.
fn give_member<'a>(
    alloc: Global,
    ctx: &Ctx,
    member: &Member,
    j: usize,
    builder: Builder<'a>,
) -> Option<Builder<'a>>
    requires key { builder.key ≡ ctx.now }
    requires row { j < length (labels ctx.now) }
    requires asked { asked builder.key.e builder.key.limit (label builder.key builder.rank) builder.reached ≡ Just j }
    ensures { IfSome result (λ b. b ≡ progress ctx.now builder.entry.rank j) }
{
    if member.entry.is_of(ctx, j) {
        return builder.give(&member.entry).ok();
    }
    let entry = entry_alone(alloc, ctx, j).ok()?;
    builder.give(&entry).ok()
}

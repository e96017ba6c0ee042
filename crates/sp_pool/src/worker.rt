// What one worker does.
ghost use Rattle.std.specs.Prelude.{◌≡◌, ◌<◌, ◌≤◌, length, IfSome, Some as Just};
ghost use Rattle.sp_cells.specs.Known.{IsOf, IsRow};
ghost use Rattle.sp_llt.specs.Place.{label, labels, place, progress};
ghost use Rattle.sp_outcome_law.specs.Asking.{asked};

use crate::Gate;
use sp_board::{Awaited, Claim, Desk, Given, Published, Seat};
use sp_cells::{Cells, Parcel, Pass, Shown};
use sp_core::Piece;
use sp_llt::{Builder, Ctx, Entry};
use std::alloc::Global;
use std::sync::{Arc, Wait};

/// Claims rows and makes them, until there is none left to claim. Without memory for a pass it claims none.
pub(crate) fn work<R: Wait, G: Gate>(
    rt: &R,
    alloc: Global,
    ctx: &Ctx,
    desk: &Desk<Entry>,
    cells: &Cells<Entry>,
    seat: Seat,
    gate: &G,
)
    requires key { cells.now.key ≡ ctx.now }
    requires rows { length cells.now.names ≡ length (labels ctx.now) }
{
    let Ok(mut pass) = cells.pass(alloc) else {
        return;
    };
    let mut seat = seat;
    for _ in rt.forever() {
        let Ok(claim) = desk.claim(rt, seat) else {
            return;
        };
        seat = one_row(rt, alloc, ctx, desk, cells, &mut pass, claim, gate);
    }
}

// Makes the claimed row, shows it and publishes it. Where it can't be made, it is lost.
fn one_row<R: Wait, G: Gate>(
    rt: &R,
    alloc: Global,
    ctx: &Ctx,
    desk: &Desk<Entry>,
    cells: &Cells<Entry>,
    pass: &mut Pass<Entry>,
    claim: Claim,
    gate: &G,
) -> Seat
    requires key { cells.now.key ≡ ctx.now }
    requires rows { length cells.now.names ≡ length (labels ctx.now) }
    requires of { IsOf cells.now pass.old }
    ensures { IsOf cells.now pass.new }
{
    let mut claim = claim;
    let w = claim.worker();
    let k = claim.row();
    gate.at_claim(w, k);
    let Some((piece, parcel)) = make(rt, alloc, ctx, desk, cells, pass, &mut claim) else {
        return seat_given(desk.lose(rt, claim));
    };
    gate.at_publish(w, k);
    show(cells, pass, k, parcel);
    seat_published(desk.publish(rt, claim, piece))
}

/// The seat of a claim that was lost.
pub(crate) fn seat_given(given: Given) -> Seat {
    match given {
        Given::Marked(seat) => seat,
        Given::Strange {
            seat,
            state: _state,
        } => seat,
    }
}

/// The seat of a claim that was published.
pub(crate) fn seat_published<T: Piece>(published: Published<T>) -> Seat {
    match published {
        Published::Kept(seat) => seat,
        Published::Strange {
            seat,
            piece: _piece,
            key: _key,
            state: _state,
        } => seat,
    }
}

/// Shows a row. Whose piece is there first doesn't matter: any that fits is this row.
pub(crate) fn show<T: Piece>(cells: &Cells<T>, pass: &mut Pass<T>, k: usize, parcel: Parcel<T>)
    requires row { k < length cells.now.names }
    requires of { IsOf cells.now pass.old }
    requires parcel { IsRow T.key T.number cells.now k parcel }
    ensures { IsOf cells.now pass.new }
{
    match cells.show(pass, k, parcel) {
        Shown::Row(_row) => (),
        Shown::Strange { there: _there } => (),
    }
}

// The claimed row, from the earlier rows that it asks for, and a parcel with it. None is made for a claim of no row of
// the context, which the lock doesn't rule out.
fn make<R: Wait>(
    rt: &R,
    alloc: Global,
    ctx: &Ctx,
    desk: &Desk<Entry>,
    cells: &Cells<Entry>,
    pass: &mut Pass<Entry>,
    claim: &mut Claim,
) -> Option<(Arc<Entry>, Parcel<Entry>)>
    requires key { cells.now.key ≡ ctx.now }
    requires rows { length cells.now.names ≡ length (labels ctx.now) }
    requires of { IsOf cells.now pass.old }
    ensures of { IsOf cells.now pass.new }
    ensures row { IfSome result (λ r. claim.old.row < length (labels ctx.now)) }
    ensures parcel { IfSome result (λ r. r.1 ≡ place ctx.now claim.old.row) }
{
    let k = claim.row();
    if k >= ctx.regulars().len() || claim.last() != k {
        return None;
    }
    let mut builder = Builder::begin(alloc, ctx, k).ok()?;
    while let Some(j) = builder.ask() {
        builder = give_earlier(rt, ctx, desk, cells, pass, claim, j, builder)?;
    }
    packed(alloc, builder.finish())
}

/// A piece twice: to be published, and to be shown.
pub(crate) fn packed<T: Piece>(alloc: Global, piece: T) -> Option<(Arc<T>, Parcel<T>)>
    ensures { IfSome result (λ r. r.1 ≡ piece) }
{
    let piece = Arc::new(alloc, piece).ok()?;
    let copy = Arc::try_clone(&piece).ok()?;
    let parcel = Parcel::pack(alloc, copy).ok()?;
    Some((piece, parcel))
}

// Gives the builder row j: from its cell, or else once the desk has it.
fn give_earlier<'a, R: Wait>(
    rt: &R,
    ctx: &Ctx,
    desk: &Desk<Entry>,
    cells: &Cells<Entry>,
    pass: &mut Pass<Entry>,
    claim: &mut Claim,
    j: usize,
    builder: Builder<'a>,
) -> Option<Builder<'a>>
    requires row { j < length cells.now.names }
    requires of { IsOf cells.now pass.old }
    requires key { builder.key ≡ ctx.now }
    requires asked { asked builder.key.e builder.key.limit (label builder.key builder.rank) builder.reached ≡ Just j }
    requires earlier { j < claim.old.last }
    ensures of { IsOf cells.now pass.new }
    ensures row { IfSome result (λ b. claim.new.row ≡ claim.old.row) }
    ensures last { IfSome result (λ b. j ≤ claim.new.last) }
    ensures given { IfSome result (λ b. b ≡ progress ctx.now builder.entry.rank j) }
{
    if let Some(row) = cells.peek(pass, j) {
        return give_row(ctx, row, j, builder);
    }
    let Awaited::Row(piece) = desk.await_row(rt, claim, j) else {
        return None;
    };
    give_row(ctx, &piece, j, builder)
}

// Gives the builder this row, if it is the one.
fn give_row<'a>(ctx: &Ctx, row: &Entry, j: usize, builder: Builder<'a>) -> Option<Builder<'a>>
    requires key { builder.key ≡ ctx.now }
    requires asked { asked builder.key.e builder.key.limit (label builder.key builder.rank) builder.reached ≡ Just j }
    ensures { IfSome result (λ b. b ≡ progress ctx.now builder.entry.rank j) }
{
    if !row.is_of(ctx, j) {
        return None;
    }
    builder.give(row).ok()
}

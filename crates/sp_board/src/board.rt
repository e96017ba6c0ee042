ghost use Rattle.std.specs.Prelude.{◌≡◌, ℕ, ◌*◌, ◌<◌, ◌≤◌, [], length, slice_get, replicate};
ghost use Rattle.std.specs.Prelude.{IfOk, MatchResult, MatchBool};
ghost use Rattle.std.specs.Arc.{arc_value};
ghost use Rattle.std.specs.declared.option.Option.TheVariants.{None as Nothing, Some};
ghost use Rattle.sp_core.specs.declared.machine.RowState.TheVariants.{Taken};
ghost use Rattle.sp_board.specs.Kept.{pieces_of};

use crate::{Claim, Given, Look, Published, Seat, Stored};
use sp_core::{Key, Piece, RowState};
use std::alloc::{AllocError, Global};
use std::marker::Model;
use std::sync::Arc;

/// The rows of a table, with the history of the calls that changed them.
#[derive(Drop)]
pub struct Board<T: Piece> {
    key: Key,
    workers: usize,
    next: usize,
    marks: Vec<RowState>,
    slots: Vec<Option<Arc<T>>>,
    history: Vec<Stored>,
}

impl<T: Piece> Model for Board<T> {
    ghost use Rattle.std.specs.Prelude.{length, vec_capacity};
    ghost use Rattle.sp_board.specs.Table.{Table, table};
    ghost use Rattle.sp_board.specs.Kept.{IsKept, pieces_of};

    ghost Value = { Table T };

    ghost view = { λ b. table b.key (length b.marks.items) b.workers b.history.items (pieces_of b.slots.items) };

    ghost invariant = { λ b. IsKept T.key T.number b.key b.workers b.next b.marks.items b.history.items
        (pieces_of b.slots.items) (vec_capacity b.history) };
}

// Whether a row is taken by the worker.
fn takes(marks: &[RowState], w: usize) -> bool
    ensures { MatchBool result
        ((k : ℕ) × (slice_get marks.now k ≡ Some (Taken w)))
        ((k : ℕ) → slice_get marks.now k ≡ Some (Taken w) → ⊥) }
{
    for mark in marks {
        if *mark == RowState::Taken(w) {
            return true;
        }
    }
    false
}

// Whether the mark is that of a row that the worker has taken.
fn is_taken_by(mark: RowState, w: usize) -> bool
    ensures { MatchBool result (mark ≡ Taken w) (mark ≡ Taken w → ⊥) }
{
    mark == RowState::Taken(w)
}

// Whether the row is the worker's, and the piece is this row's.
fn fits<T: Piece>(mark: RowState, w: usize, piece: &T, key: Key, row: usize) -> bool
    ensures { MatchBool result
        ((mark ≡ Taken w) × (T.key piece.now ≡ key) × (T.number piece.now ≡ row))
        ((mark ≡ Taken w) × (T.key piece.now ≡ key) × (T.number piece.now ≡ row) → ⊥) }
{
    mark == RowState::Taken(w) && piece.key() == key && piece.number() == row
}

fn empty_slots<T: Piece>(alloc: Global, rows: usize) -> Result<Vec<Option<Arc<T>>>, AllocError>
    ensures { IfOk result (λ v. pieces_of v.items ≡ replicate rows Nothing) }
{
    let mut slots = Vec::with_capacity(alloc, rows)?;
    for _ in 0..rows {
        slots.push(None)?;
    }
    Ok(slots)
}

fn seats(alloc: Global, workers: usize) -> Result<Vec<Seat>, AllocError>
    ensures { IfOk result (λ v. (length v.items ≡ workers) × ((w : ℕ) → w < workers → slice_get v.items w ≡ Some w)) }
{
    let mut seats = Vec::with_capacity(alloc, workers)?;
    for w in 0..workers {
        seats.push(Seat::new(w))?;
    }
    Ok(seats)
}

impl<T: Piece> Board<T> {
    ghost use Rattle.sp_board.specs.History.{Marks};
    ghost use Rattle.sp_board.specs.Table.{table, ReplaysTo, IsCoreRun};
    ghost use Rattle.sp_board.specs.Answers.{Claims, Refuses, Publishes, Loses, Looked, HasRow};

    /// A board with an empty history, and its seats, numbered from 0.
    pub fn open(
        alloc: Global,
        key: Key,
        rows: usize,
        workers: usize,
    ) -> Result<(Board<T>, Vec<Seat>), AllocError>
        requires rows { (1 ≤ rows) × (rows ≤ 5604) }
        requires workers { 1 ≤ workers }
        ensures board { IfOk result (λ r. r.0 ≡ table key rows workers [] (replicate rows Nothing)) }
        ensures seats { IfOk result
            (λ r. (length r.1.items ≡ workers) × ((w : ℕ) → w < workers → slice_get r.1.items w ≡ Some w)) }
    {
        let marks = vec![in alloc; RowState::Open; rows]?;
        let slots = empty_slots(alloc, rows)?;
        // each row is claimed once, and ended at most once
        let history = Vec::with_capacity(alloc, 2 * rows)?;
        let seats = seats(alloc, workers)?;
        let board = Board {
            key,
            workers,
            next: 0,
            marks,
            slots,
            history,
        };
        Ok((board, seats))
    }

    /// Takes the next row. The seat comes back where it may not claim.
    pub fn claim(&mut self, seat: Seat) -> Result<Claim, Seat>
        ensures { MatchResult result (λ c. Claims self.old seat c self.new) (λ s. Refuses self.old seat s self.new) }
    {
        let w = seat.worker();
        let k = self.next;
        if k >= self.marks.len() || w >= self.workers || takes(&self.marks, w) {
            return Err(seat);
        }
        self.marks[k] = RowState::Taken(w);
        self.history.push_reserved(Stored::Claim { w });
        self.next = k + 1;
        Ok(Claim::new(seat, k))
    }

    /// Ends a claim with its row.
    pub fn publish(&mut self, claim: Claim, piece: Arc<T>) -> Published<T>
        ensures { Publishes T.key T.number self.old claim (arc_value piece) result self.new }
    {
        let row = claim.row();
        let w = claim.worker();
        let seat = claim.into_seat();
        if row >= self.marks.len() {
            return Published::Strange {
                seat,
                piece,
                key: self.key,
                state: None,
            };
        }
        let state = self.marks[row];
        if !fits(state, w, &*piece, self.key, row) {
            return Published::Strange {
                seat,
                piece,
                key: self.key,
                state: Some(state),
            };
        }
        self.marks[row] = RowState::Done;
        self.slots[row] = Some(piece);
        self.history.push_reserved(Stored::Publish { w, row });
        Published::Kept(seat)
    }

    /// Ends a claim without its row.
    pub fn lose(&mut self, claim: Claim) -> Given
        ensures { Loses self.old claim result self.new }
    {
        let row = claim.row();
        let w = claim.worker();
        let seat = claim.into_seat();
        if row >= self.marks.len() {
            return Given::Strange { seat, state: None };
        }
        let state = self.marks[row];
        if !is_taken_by(state, w) {
            return Given::Strange {
                seat,
                state: Some(state),
            };
        }
        self.marks[row] = RowState::Lost;
        self.history.push_reserved(Stored::Lose { w, row });
        Given::Marked(seat)
    }

    /// What is known of row `j`.
    pub fn look(&self, j: usize) -> Look<'_, T>
        ensures look { Looked self.now j result }
        ensures row { HasRow T.key T.number self.now j result }
    {
        if j >= self.marks.len() {
            return Look::NoRow;
        }
        match self.marks[j] {
            RowState::Done => match &self.slots[j] {
                Some(piece) => Look::Done(piece),
                None => unreachable!(),
            },
            RowState::Lost => Look::Lost,
            RowState::Open | RowState::Taken(_) => Look::NotYet,
        }
    }

    /// The history, oldest entry first.
    pub fn history(&self) -> &[Stored]
        ensures entries { result.now ≡ self.now.history }
        ensures replays { (m : Marks) × ReplaysTo self.now m }
        ensures run { IsCoreRun self.now }
        ensures bound { length self.now.history ≤ 2 * self.now.rows }
    {
        self.history.as_slice()
    }
}

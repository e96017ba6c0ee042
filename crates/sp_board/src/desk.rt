ghost use Rattle.std.specs.Prelude.{◌≡◌, ℕ, ◌<◌, ◌≤◌, length, slice_get, IfOk, MatchResult};
ghost use Rattle.std.specs.Arc.{arc_value};
ghost use Rattle.std.specs.declared.option.Option.TheVariants.{Some};
ghost use Rattle.sp_board.specs.Answers.{AwaitedBy, Found, PublishedAtDesk, LostAtDesk};

use crate::{Awaited, Board, Claim, Given, Look, Published, Seat};
use sp_core::{Key, Piece};
use std::alloc::{AllocError, Global};
use std::sync::{Arc, Condvar, Mutex, Wait};

/// A board behind a lock, and who waits for its rows. What the lock can't tell a caller, that a claim is still the
/// board's, is an answer.
#[derive(Drop)]
pub struct Desk<T: Piece> {
    board: Mutex<Board<T>>,
    moved: Condvar,
}

impl<T: Piece> Desk<T> {
    /// A desk with an empty history, and its seats, numbered from 0.
    pub fn open(
        alloc: Global,
        key: Key,
        rows: usize,
        workers: usize,
    ) -> Result<(Desk<T>, Vec<Seat>), AllocError>
        requires rows { (1 ≤ rows) × (rows ≤ 5604) }
        requires workers { 1 ≤ workers }
        ensures seats { IfOk result
            (λ r. (length r.1.items ≡ workers) × ((w : ℕ) → w < workers → slice_get r.1.items w ≡ Some w)) }
    {
        let (board, seats) = Board::open(alloc, key, rows, workers)?;
        Ok((
            Desk {
                board: Mutex::new(board),
                moved: Condvar::new(),
            },
            seats,
        ))
    }

    /// Takes the next row. The seat comes back where it may not claim.
    pub fn claim<R: Wait>(&self, rt: &R, seat: Seat) -> Result<Claim, Seat>
        ensures { MatchResult result (λ c. (c.worker ≡ seat) × (c.last ≡ c.row)) (λ s. s ≡ seat) }
    {
        self.board.lock(rt).claim(seat)
    }

    /// Ends a claim with its row, and wakes all that wait.
    pub fn publish<R: Wait>(&self, rt: &R, claim: Claim, piece: Arc<T>) -> Published<T>
        ensures { PublishedAtDesk T.key T.number claim (arc_value piece) result }
    {
        let answer = self.board.lock(rt).publish(claim, piece);
        self.moved.notify_all();
        answer
    }

    /// Ends a claim without its row, and wakes all that wait.
    pub fn lose<R: Wait>(&self, rt: &R, claim: Claim) -> Given
        ensures { LostAtDesk claim result }
    {
        let answer = self.board.lock(rt).lose(claim);
        self.moved.notify_all();
        answer
    }

    /// Row `j`, once it is neither open nor taken.
    pub fn await_row<R: Wait>(&self, rt: &R, claim: &mut Claim, j: usize) -> Awaited<T>
        requires { j < claim.old.last }
        ensures { AwaitedBy T.number claim.old claim.new j result }
    {
        let board = self
            .moved
            .wait_while(rt, self.board.lock(rt), |board| board.is_pending(j));
        let found = board.row_at(j);
        if let Awaited::Row(_) | Awaited::Lost = found {
            claim.asked(j);
        }
        found
    }

    /// The board, once nobody else holds the desk.
    pub fn into_board(self) -> Board<T> {
        let Desk { board, moved: _ } = self;
        board.into_inner()
    }
}

impl<T: Piece> Board<T> {
    fn is_pending(&self, j: usize) -> bool {
        match self.look(j) {
            Look::NotYet => true,
            _ => false,
        }
    }

    fn row_at(&self, j: usize) -> Awaited<T>
        ensures { Found T.number j result }
    {
        match self.look(j) {
            Look::Done(piece) => match Arc::try_clone(piece) {
                Ok(copy) => Awaited::Row(copy),
                Err(_) => Awaited::Memory,
            },
            Look::Lost => Awaited::Lost,
            // no wait ends in NotYet
            Look::NoRow | Look::NotYet => Awaited::NoRow,
        }
    }
}

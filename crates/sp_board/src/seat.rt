ghost use Rattle.std.specs.Prelude.{◌≡◌, ℕ};
ghost use Rattle.sp_board.specs.Claimed.{claimed};

use std::marker::Model;

/// A worker's right to claim. Contracts see it as the worker's number.
#[derive(Drop)]
pub struct Seat {
    worker: usize,
}

impl Model for Seat {
    ghost use Rattle.std.specs.Prelude.{ℕ};

    ghost Value = { ℕ };

    ghost view = { λ s. s.worker };
}

impl Seat {
    pub(crate) fn new(worker: usize) -> Seat
        ensures { result ≡ worker }
    {
        Seat { worker }
    }

    pub fn worker(&self) -> usize
        ensures { result ≡ self.now }
    {
        self.worker
    }
}

/// A seat with the row that it took. It may ask for the rows below `last`.
#[derive(Drop)]
pub struct Claim {
    seat: Seat,
    row: usize,
    last: usize,
}

impl Model for Claim {
    ghost use Rattle.sp_board.specs.Claimed.{Claimed, claimed};

    ghost Value = { Claimed };

    ghost view = { λ c. claimed c.seat c.row c.last };
}

impl Claim {
    pub(crate) fn new(seat: Seat, row: usize) -> Claim
        ensures { result ≡ claimed seat row row }
    {
        Claim {
            seat,
            row,
            last: row,
        }
    }

    pub(crate) fn into_seat(self) -> Seat
        ensures { result ≡ self.worker }
    {
        let Claim {
            seat,
            row: _,
            last: _,
        } = self;
        seat
    }

    /// Row `j` was answered: from now on it may ask for the rows below.
    pub(crate) fn asked(&mut self, j: usize)
        ensures { self.new ≡ claimed self.old.worker self.old.row j }
    {
        self.last = j;
    }

    pub fn worker(&self) -> usize
        ensures { result ≡ self.now.worker }
    {
        self.seat.worker()
    }

    pub fn row(&self) -> usize
        ensures { result ≡ self.now.row }
    {
        self.row
    }

    pub fn last(&self) -> usize
        ensures { result ≡ self.now.last }
    {
        self.last
    }
}

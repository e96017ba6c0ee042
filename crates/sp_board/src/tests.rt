use crate::{Awaited, Board, Claim, Desk, Given, Look, Published, Seat, Stored, history_law};
use sp_core::{Key, Piece, RowState};
use std::alloc::Global;
use std::sync::atomic::{AtomicU64, Ordering};
use std::sync::{Arc, Wait};
use std::test::Fail;
use std::thread;
use std::thread::Threads;

#[derive(Drop, Debug)]
struct Plain {
    key: Key,
    number: usize,
}

impl Piece for Plain {
    ghost key = { λ p. p.key };

    ghost number = { λ p. p.number };

    fn key(&self) -> Key {
        self.key
    }

    fn number(&self) -> usize {
        self.number
    }
}

const KEY: Key = Key {
    e: 2,
    degree: 5,
    limit: 9,
};

fn piece(alloc: Global, number: usize) -> Result<Arc<Plain>, Fail> {
    Ok(Arc::new(alloc, Plain { key: KEY, number })?)
}

fn two(seats: Vec<Seat>) -> Result<(Seat, Seat), Fail> {
    let mut seats = seats;
    let second = seats.pop().ok_or("a second seat")?;
    let first = seats.pop().ok_or("a first seat")?;
    Ok((first, second))
}

fn claimed<R: Wait>(rt: &R, desk: &Desk<Plain>, seat: Seat) -> Result<Claim, Fail> {
    match desk.claim(rt, seat) {
        Ok(claim) => Ok(claim),
        Err(_seat) => Err(Fail::from("no claim")),
    }
}

#[test]
fn one_row_and_two_seats(rt: HostRuntime) -> Result<(), Fail> {
    let (mut board, seats) = Board::<Plain>::open(rt.alloc(), KEY, 1, 2)?;
    let (first, second) = two(seats)?;
    assert_eq!(rt; first.worker(), 0);
    assert_eq!(rt; second.worker(), 1);
    let Ok(claim) = board.claim(first) else {
        return Err(Fail::from("no claim"));
    };
    assert_eq!(rt; claim.worker(), 0);
    assert_eq!(rt; claim.row(), 0);
    assert_eq!(rt; claim.last(), 0);
    assert!(rt; board.claim(second).is_err());
    assert!(rt; matches!(board.look(0), Look::NotYet));
    assert!(rt; matches!(board.look(1), Look::NoRow));
    assert!(rt;
        matches!(
            board.publish(claim, piece(rt.alloc(), 0)?),
            Published::Kept(_)
        )
    );
    assert!(rt; matches!(board.look(0), Look::Done(_)));
    assert_eq!(rt;
        board.history(),
        [Stored::Claim { w: 0 }, Stored::Publish { w: 0, row: 0 }].as_slice()
    );
    history_law();
    Ok(())
}

#[test]
fn a_lost_row_is_lost(rt: HostRuntime) -> Result<(), Fail> {
    let (mut board, seats) = Board::<Plain>::open(rt.alloc(), KEY, 1, 2)?;
    let (first, _second) = two(seats)?;
    let Ok(claim) = board.claim(first) else {
        return Err(Fail::from("no claim"));
    };
    assert!(rt; matches!(board.lose(claim), Given::Marked(_)));
    assert!(rt; matches!(board.look(0), Look::Lost));
    Ok(())
}

// A claim of one board is handed to another one.
#[test]
fn a_strange_claim_is_told(rt: HostRuntime) -> Result<(), Fail> {
    let (desk, seats) = Desk::<Plain>::open(rt.alloc(), KEY, 2, 1)?;
    let (mut other, _seats) = Board::<Plain>::open(rt.alloc(), KEY, 1, 1)?;
    let mut seats = seats;
    let claim = claimed(&rt, &desk, seats.pop().ok_or("a seat")?)?;
    let Given::Strange { seat, state } = other.lose(claim) else {
        return Err(Fail::from("a claim of another board"));
    };
    assert!(rt; state == Some(RowState::Open));
    assert_eq!(rt; seat.worker(), 0);
    assert_eq!(rt;
        desk.into_board().history(),
        [Stored::Claim { w: 0 }].as_slice()
    );
    Ok(())
}

// Waits for row 0, and says what came: 1 for the row, 2 for Lost.
fn wait<R: Wait>(rt: &R, desk: &Desk<Plain>, claim: Claim, came: &AtomicU64) {
    let mut claim = claim;
    if claim.last() == 0 {
        return;
    }
    let answer = match desk.await_row(rt, &mut claim, 0) {
        Awaited::Row(row) => {
            if row.number() == 0 && claim.last() == 0 {
                1
            } else {
                3
            }
        }
        Awaited::Lost => 2,
        Awaited::NoRow | Awaited::Memory => 3,
    };
    came.store(answer, Ordering::SeqCst);
}

// What a second worker hears that waits for the first one's row. The first publishes this piece, or loses the row.
fn heard<R: Threads + Wait + Sync>(
    rt: &R,
    alloc: Global,
    row: Option<Arc<Plain>>,
) -> Result<u64, Fail> {
    let (desk, seats) = Desk::<Plain>::open(alloc, KEY, 2, 2)?;
    let (first, second) = two(seats)?;
    let one = claimed(rt, &desk, first)?;
    let two = claimed(rt, &desk, second)?;
    let came = AtomicU64::new(0);
    thread::scope(thread::scope_env(), rt, |scope| {
        let job = || wait(rt, &desk, two, &came);
        if scope.spawn(job).is_err() {
            return;
        }
        match row {
            Some(piece) => {
                let _answer = desk.publish(rt, one, piece);
            }
            None => {
                let _answer = desk.lose(rt, one);
            }
        }
    });
    Ok(came.load(Ordering::SeqCst))
}

#[test]
fn a_waiter_gets_the_row(rt: HostRuntime) -> Result<(), Fail> {
    let row = piece(rt.alloc(), 0)?;
    assert_eq!(rt; heard(&rt, rt.alloc(), Some(row))?, 1);
    Ok(())
}

#[test]
fn a_waiter_hears_of_a_loss(rt: HostRuntime) -> Result<(), Fail> {
    assert_eq!(rt; heard(&rt, rt.alloc(), None)?, 2);
    Ok(())
}

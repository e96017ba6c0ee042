use crate::Seat;
use sp_core::{Key, RowState};
use std::sync::Arc;

/// What `publish` answers. The seat is that of the claim.
#[derive(Drop)]
pub enum Published<T> {
    /// The row is done.
    Kept(Seat),
    /// The row isn't this claim's, or the piece isn't this row's. `key` is the board's, and `state` what is known of
    /// the row, if there is one.
    Strange {
        seat: Seat,
        piece: Arc<T>,
        key: Key,
        state: Option<RowState>,
    },
}

/// What `lose` answers. The seat is that of the claim.
#[derive(Drop)]
pub enum Given {
    /// The row is lost.
    Marked(Seat),
    /// The row isn't this claim's. `state` is what is known of it, if there is one.
    Strange { seat: Seat, state: Option<RowState> },
}

/// What is known of a row.
#[derive(Drop)]
pub enum Look<'a, T> {
    Done(&'a Arc<T>),
    Lost,
    NoRow,
    /// It is open or taken.
    NotYet,
}

/// What a wait for a row ends in.
#[derive(Drop)]
pub enum Awaited<T> {
    Row(Arc<T>),
    Lost,
    NoRow,
    /// The row is done, but there was no memory to share it.
    Memory,
}

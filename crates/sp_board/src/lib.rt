//! The table of finished rows that workers share: a board, and the desk that locks it.
//!
//! A worker brings its [`Seat`] to claim the next row, and hands the [`Claim`] back with the row or without it. A board
//! stores each call that changed it. The table is what this history replays to, and the history is a run of the machine
//! of `sp_core`, whatever seats and claims are handed in.
#![tactic(auto)]

mod answers;
mod board;
mod desk;
mod law;
mod seat;
mod stored;

pub use answers::{Awaited, Given, Look, Published};
pub use board::Board;
pub use desk::Desk;
pub use law::history_law;
pub use seat::{Claim, Seat};
pub use stored::Stored;

#[cfg(test)]
mod tests;

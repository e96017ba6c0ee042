//! The scheduler as a pure machine, and what a finished row tells of itself.
//!
//! Workers claim rows in order, ask for earlier rows while they work, and publish or lose their own. No call but
//! [`State::open`] takes memory, and none waits.
#![tactic(auto)]

mod law;
mod machine;
mod piece;
mod state;

pub use law::core_law;
pub use machine::{Answer, Event, NotAllowed, RowState, WorkerState};
pub use piece::{Key, Piece};
pub use state::State;

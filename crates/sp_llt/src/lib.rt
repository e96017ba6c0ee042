//! Rows of the canonical basis: their law, and the entries that hold them.
//!
//! A [`Ctx`] fixes e, the degree and the limit on coefficients. A [`Builder`] makes the [`Entry`] of one e-regular
//! partition from the earlier entries that it asks for, and [`entry_alone`] does both.
#![tactic(auto)]

mod adopt;
mod alone;
mod builder;
mod ctx;
mod entry;
mod fault;
mod ladder;
mod law;
mod refused;
mod same;
mod search;
mod share;

pub use alone::entry_alone;
pub use builder::Builder;
pub use ctx::Ctx;
pub use entry::Entry;
pub use fault::AdoptFault;
pub use law::rows_law;
pub use refused::{FirstRefused, Refused, RowsFault, first_refused};
pub use share::Share;

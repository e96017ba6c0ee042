//! Painters: they write grids as texts, page after page.
#![tactic(auto)]

mod choice;
mod form;
mod gap;
mod kinds;
mod notation;
mod page;
mod painter;
mod parts;
mod plain;
mod tex;
mod text;

pub use choice::choose;
pub use form::Form;
pub use kinds::{Gap, Plain, Tex};
pub use page::{put_page, put_trailer};
pub use painter::Painter;

//! The commands, and how a line says one.
#![tactic(auto)]

ghost use Rattle.std.specs.Prelude.{◌≡◌};

mod command;
mod convention;
mod fault;
mod given;
mod name;
mod read;
mod test;
mod value;
mod verb;
mod words;

pub use command::Command;
pub use convention::Convention;
pub use fault::LineFault;
pub use name::Name;
pub use read::read_command;

/// The greatest number of bytes of a line.
pub const LINE_LIMIT: usize = 4096;

/// The limit on a line is 4 KiB.
pub fn line_limit_law()
    ensures { LINE_LIMIT ≡ 4096 }
{}

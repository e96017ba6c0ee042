//! What the constants are.
ghost use Rattle.std.specs.Prelude.{◌≡◌, pos};

use crate::{POWER_LIMIT, READ_LIMIT};

/// The limits, as numbers. It takes and answers nothing: its contract is what they are.
pub fn values_law()
    ensures power { POWER_LIMIT ≡ pos 1000000000 }
    ensures read { READ_LIMIT ≡ pos 10000000 }
{}

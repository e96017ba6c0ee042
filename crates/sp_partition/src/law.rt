// What the constants are.
ghost use Rattle.std.specs.Prelude.{◌≡◌};

use crate::{CAPACITY, DEGREE_LIMIT};

/// The limits, as numbers. It takes and answers nothing: its contract is what they are.
pub fn values_law()
    ensures degree { DEGREE_LIMIT ≡ 30 }
    ensures capacity { CAPACITY ≡ 32 }
{}

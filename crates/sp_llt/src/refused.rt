// Why there is no row.
ghost use Rattle.std.specs.Prelude.{◌≡◌, map, reverse};
ghost use Rattle.std.specs.Arc.{arc_value};
ghost use Rattle.sp_llt.specs.Refusals.{refusal, first_refusal};

use crate::Entry;
use sp_partition::Partition;
use std::sync::Arc;

/// Why an entry has no row.
#[derive(Clone, Copy, Debug)]
pub enum Refused {
    /// The weight of a partition that it needs is past the limit.
    TooLarge,
    /// The greatest partition other than its own whose coefficient in the regular row isn't in vZ[v].
    Stray { at: Partition },
}

/// A refused entry of a list: its partition, and why.
#[derive(Clone, Copy, Debug)]
pub struct FirstRefused {
    pub mu: Partition,
    pub why: Refused,
}

/// Why a list of rows gives nothing.
#[derive(Clone, Copy, Debug)]
pub enum RowsFault {
    Refused(FirstRefused),
    Memory,
}

/// The last entry of the list that is refused. It takes no memory.
pub fn first_refused(rows: &[Arc<Entry>]) -> Option<FirstRefused>
    ensures { result ≡ first_refusal (reverse (map arc_value rows.now)) }
{
    for k in (0..rows.len()).rev() {
        if let Some(refused) = refusal_of(&rows[k]) {
            return Some(refused);
        }
    }
    None
}

// The entry's partition and why it has no row, if it has none.
fn refusal_of(entry: &Entry) -> Option<FirstRefused>
    ensures { result ≡ refusal entry.now }
{
    match entry.row() {
        Ok(_) => None,
        Err(why) => Some(FirstRefused {
            mu: *entry.mu(),
            why,
        }),
    }
}

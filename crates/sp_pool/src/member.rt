// A row of a block.

use sp_core::{Key, Piece};
use sp_llt::Entry;
use sp_partition::Partition;
use std::sync::Arc;

/// A row of a block: its entry, the block's core, and the entry's place among the block's ranks, counted from 0.
#[derive(Drop)]
pub struct Member {
    pub entry: Arc<Entry>,
    pub core: Partition,
    pub place: usize,
}

impl Piece for Member {
    ghost use Rattle.std.specs.Arc.{arc_value};

    ghost key = { λ m. (arc_value m.entry).key };

    ghost number = { λ m. m.place };

    fn key(&self) -> Key {
        self.entry.key()
    }

    fn number(&self) -> usize {
        self.place
    }
}

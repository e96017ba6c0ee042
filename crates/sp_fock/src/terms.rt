// The terms of a vector, from its greatest partition to its least.
ghost use Rattle.std.specs.Iterator.{item_count, YieldsFirstBy};
ghost use Rattle.sp_fock.specs.Terms.{entry_of};

use sp_laurent::Laurent;
use sp_partition::Partition;
use std::marker::Model;

/// Goes over the terms of a vector, descending. It takes no memory.
#[derive(Drop)]
pub struct Terms<'a> {
    pub(crate) pairs: &'a [(Partition, Laurent)],
}

impl<'a> Model for Terms<'a> {
    ghost use Rattle.std.specs.Prelude.{reverse};
    ghost use Rattle.sp_defs.specs.Power.{Entries};

    ghost Value = { Entries };

    ghost view = { λ a. reverse a.pairs.now };
}

impl<'a> Iterator for Terms<'a> {
    type Item = (Partition, &'a Laurent);

    ghost next_gives = { YieldsFirstBy entry_of (λ entries. entries) };

    ghost remaining = { item_count (λ entries. entries) };

    fn next(&mut self) -> Option<(Partition, &'a Laurent)> {
        let (last, others) = self.pairs.split_last()?;
        self.pairs = others;
        Some((last.0, &last.1))
    }
}

// A list of pairs that is used up, and one that stays.
ghost use Rattle.std.specs.Prelude.{◌≡◌};
ghost use Rattle.std.specs.Vec.Iter.{into_iter_items};
ghost use Rattle.sp_fock.specs.Left.{IsCounted, pairs_left};

use sp_laurent::Laurent;
use sp_partition::Partition;
use std::alloc::Global;
use std::vec::IntoIter;

/// Goes over the partitions of two lists of one degree, ascending. The pairs of the first list are given away.
#[derive(Drop)]
pub(crate) struct Merged<'a> {
    pub(crate) alloc: Global,
    // The first pair that is still to come, and those after it.
    pub(crate) head: Option<(Partition, Laurent)>,
    others: IntoIter<(Partition, Laurent)>,
    pub(crate) second: &'a [(Partition, Laurent)],
    ghost counted: { IsCounted others },
}

impl<'a> Merged<'a> {
    /// The walk along these lists.
    pub(crate) fn new(
        alloc: Global,
        first: Vec<(Partition, Laurent)>,
        second: &'a [(Partition, Laurent)],
    ) -> Merged<'a>
        ensures pairs { pairs_left result.head result.others ≡ first.items }
        ensures second { result.second.now ≡ second.now }
    {
        let mut others = first.into_iter();
        let head = others.next();
        Merged {
            alloc,
            head,
            others,
            second,
        }
    }

    // The next pair of the first list stands at its head.
    pub(crate) fn advance(&mut self)
        ensures pairs { pairs_left self.new.head self.new.others ≡ into_iter_items self.old.others }
        ensures second { self.new.second ≡ self.old.second }
    {
        self.head = self.others.next();
    }
}

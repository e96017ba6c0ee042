// A list of pairs that is used up and one that stays, walked together.
ghost use Rattle.std.specs.Prelude.{◌≡◌, []};
ghost use Rattle.std.specs.Iterator.{item_count, YieldsFirstBy};
ghost use Rattle.sp_fock_law.specs.Joined.{joint};
ghost use Rattle.sp_fock.specs.Merged.{meeting_of, merged_of};

use crate::merged::Merged;
use sp_laurent::Laurent;
use sp_partition::Partition;
use std::alloc::Global;
use std::cmp::Ordering;

/// A partition that occurs in one of two lists or in both, with what they have there: 0 where the first has nothing.
#[derive(Drop)]
pub(crate) struct Meeting<'a> {
    pub(crate) at: Partition,
    pub(crate) first: Laurent,
    pub(crate) second: Option<&'a Laurent>,
}

impl<'a> Iterator for Merged<'a> {
    type Item = Meeting<'a>;

    ghost next_gives = { YieldsFirstBy meeting_of merged_of };

    ghost remaining = { item_count merged_of };

    fn next(&mut self) -> Option<Meeting<'a>> {
        match (self.head.take(), self.second.split_first()) {
            (None, None) => None,
            (Some(pair), None) => {
                self.advance();
                Some(only_pair(pair))
            }
            (None, Some((term, terms))) => {
                self.second = terms;
                Some(only_term(self.alloc, term))
            }
            // Partitions of one degree are in the order of their parts.
            (Some(pair), Some((term, terms))) => match pair.0.compare_parts(&term.0) {
                Ordering::Less => {
                    self.advance();
                    Some(only_pair(pair))
                }
                Ordering::Equal => {
                    self.advance();
                    self.second = terms;
                    Some(pair_and_term(pair, term))
                }
                Ordering::Greater => {
                    self.head = Some(pair);
                    self.second = terms;
                    Some(only_term(self.alloc, term))
                }
            },
        }
    }
}

fn only_pair<'a>(pair: (Partition, Laurent)) -> Meeting<'a>
    ensures { meeting_of result ≡ joint pair.0 pair.1 [] }
{
    Meeting {
        at: pair.0,
        first: pair.1,
        second: None,
    }
}

fn only_term<'a>(alloc: Global, term: &'a (Partition, Laurent)) -> Meeting<'a>
    ensures { meeting_of result ≡ joint term.now.0 [] term.now.1 }
{
    Meeting {
        at: term.0,
        first: Laurent::zero(alloc),
        second: Some(&term.1),
    }
}

fn pair_and_term<'a>(pair: (Partition, Laurent), term: &'a (Partition, Laurent)) -> Meeting<'a>
    ensures { meeting_of result ≡ joint pair.0 pair.1 term.now.1 }
{
    Meeting {
        at: pair.0,
        first: pair.1,
        second: Some(&term.1),
    }
}

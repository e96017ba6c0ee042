// Two ascending lists of pairs, walked together.
ghost use Rattle.std.specs.Prelude.{◌≡◌, [], ◌+◌, ◌*◌, ◌^◌, ◌<◌, ◌≤◌, ◌↔◌, ◌∷◌, IsTrue, IfNone, IfSome};
ghost use Rattle.std.specs.Iterator.{item_count, YieldsFirstBy};
ghost use Rattle.sp_defs.specs.Laurent.{size};
ghost use Rattle.sp_fock.specs.Sum.{AllFit};
ghost use Rattle.sp_fock.specs.Walk.{joint_of, shown, walk_of};
ghost use Rattle.sp_fock_law.specs.Joined.{joint, joined};

use sp_laurent::Laurent;
use sp_partition::Partition;
use std::cmp::Ordering;

/// A partition that occurs in one of two lists or in both, with what they have there.
#[derive(Drop)]
pub(crate) struct Joint<'a> {
    pub(crate) at: Partition,
    pub(crate) first: Option<&'a Laurent>,
    pub(crate) second: Option<&'a Laurent>,
}

impl<'a> Joint<'a> {
    // Whether what occurs here where the second is multiplied and added is within the limit.
    pub(crate) fn fits(&self, factor: u128, limit: u128) -> bool
        ensures { IsTrue result ↔ (size (shown self.now.first) + factor * size (shown self.now.second) ≤ limit) }
    {
        let first = self.first.map_or(0, Laurent::size);
        let second = self.second.map_or(0, Laurent::size);
        factor
            .checked_mul(second)
            .and_then(|product| product.checked_add(first))
            .is_some_and(|sum| sum <= limit)
    }
}

/// Goes over the partitions of two lists of one degree, ascending.
#[derive(Drop)]
pub(crate) struct Joined<'a> {
    pub(crate) first: &'a [(Partition, Laurent)],
    pub(crate) second: &'a [(Partition, Laurent)],
}

impl<'a> Iterator for Joined<'a> {
    type Item = Joint<'a>;

    ghost next_gives = { YieldsFirstBy joint_of walk_of };

    ghost remaining = { item_count walk_of };

    fn next(&mut self) -> Option<Joint<'a>> {
        match next_joint(self.first, self.second) {
            Some((joint, first, second)) => {
                self.first = first;
                self.second = second;
                Some(joint)
            }
            None => None,
        }
    }
}

// The first partition of either list, and what is left of both.
fn next_joint<'a>(
    first: &'a [(Partition, Laurent)],
    second: &'a [(Partition, Laurent)],
) -> Option<
    (
        Joint<'a>,
        &'a [(Partition, Laurent)],
        &'a [(Partition, Laurent)],
    ),
>
    ensures none { IfNone result (joined first.now second.now ≡ []) }
    ensures some { IfSome result (λ r. joined first.now second.now ≡ joint_of r.0 ∷ joined r.1.now r.2.now) }
{
    match (first.split_first(), second.split_first()) {
        (None, None) => None,
        (Some((pair, others)), None) => Some((only_first(pair), others, second)),
        (None, Some((pair, others))) => Some((only_second(pair), first, others)),
        // Partitions of one degree are in the order of their parts.
        (Some((pair, others)), Some((second_pair, second_others))) => match pair
            .0
            .compare_parts(&second_pair.0)
        {
            Ordering::Less => Some((only_first(pair), others, second)),
            Ordering::Equal => Some((both(pair, second_pair), others, second_others)),
            Ordering::Greater => Some((only_second(second_pair), first, second_others)),
        },
    }
}

fn only_first<'a>(pair: &'a (Partition, Laurent)) -> Joint<'a>
    ensures { joint_of result ≡ joint pair.now.0 pair.now.1 [] }
{
    Joint {
        at: pair.0,
        first: Some(&pair.1),
        second: None,
    }
}

fn only_second<'a>(pair: &'a (Partition, Laurent)) -> Joint<'a>
    ensures { joint_of result ≡ joint pair.now.0 [] pair.now.1 }
{
    Joint {
        at: pair.0,
        first: None,
        second: Some(&pair.1),
    }
}

fn both<'a>(pair: &'a (Partition, Laurent), second: &'a (Partition, Laurent)) -> Joint<'a>
    ensures { joint_of result ≡ joint pair.now.0 pair.now.1 second.now.1 }
{
    Joint {
        at: pair.0,
        first: Some(&pair.1),
        second: Some(&second.1),
    }
}

// Whether no sum of sizes passes the limit, where the second list is multiplied by a polynomial of this size.
pub(crate) fn all_fit(
    first: &[(Partition, Laurent)],
    factor: u128,
    second: &[(Partition, Laurent)],
    limit: u128,
) -> bool
    ensures { IsTrue result ↔ AllFit factor limit (joined first.now second.now) }
{
    for joint in (Joined { first, second }) {
        if !joint.fits(factor, limit) {
            return false;
        }
    }
    true
}

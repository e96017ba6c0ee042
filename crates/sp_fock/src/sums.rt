// Sums of ascending lists of pairs.
ghost use Rattle.std.specs.Prelude.{◌≡◌, ◌^◌, ◌<◌, ◌≤◌, IfOk, IsErrOf};
ghost use Rattle.std.specs.List.{AllByRecursion};
ghost use Rattle.sp_fock_law.specs.Joined.{combined, joined};
ghost use Rattle.sp_fock.specs.Held.{ArePairs};
ghost use Rattle.sp_fock.specs.Merged.{meeting_of};
ghost use Rattle.sp_fock.specs.Sum.{added, CanAdd};

use crate::FockFault;
use crate::meeting::Meeting;
use crate::merged::Merged;
use sp_laurent::Laurent;
use sp_partition::Partition;
use std::alloc::{AllocError, Global};

impl<'a> Meeting<'a> {
    // The first and `factor` times the second, in the memory of the first.
    fn sum(self, factor: &Laurent, limit: u128) -> Result<Laurent, FockFault>
        requires least { 1 ≤ limit }
        requires most { limit < 2 ^ 127 }
        requires can { CanAdd factor.now limit (meeting_of self) }
        ensures sum { IfOk result (λ sum.
            sum ≡ added factor.now (meeting_of self.entry).first (meeting_of self.entry).second) }
        ensures fits { ¬ IsErrOf result FockFault.TooLarge }
    {
        match self.second {
            Some(second) => Ok(self.first.plus_product(factor, second, limit)?),
            None => Ok(self.first),
        }
    }
}

// The first list and `factor` times the second. What the first has is moved.
pub(crate) fn sum_of(
    alloc: Global,
    first: Vec<(Partition, Laurent)>,
    factor: &Laurent,
    second: &[(Partition, Laurent)],
    limit: u128,
) -> Result<Vec<(Partition, Laurent)>, FockFault>
    requires least { 1 ≤ limit }
    requires most { limit < 2 ^ 127 }
    requires can { AllByRecursion (CanAdd factor.now limit) (joined first.items second.now) }
    ensures sum { IfOk result (λ sums. sums.items ≡ combined (added factor.now) (joined first.items second.now)) }
    ensures held { IfOk result (λ sums. ArePairs sums.items) }
    ensures fits { ¬ IsErrOf result FockFault.TooLarge }
{
    let mut sums = Vec::new(alloc);
    for meeting in Merged::new(alloc, first, second) {
        let at = meeting.at;
        let sum = meeting.sum(factor, limit)?;
        if !sum.terms().is_empty() {
            sums.push((at, sum)).map_err(AllocError::from)?;
        }
    }
    Ok(sums)
}

// Of two partitions of one degree, one dominates where each of its initial sums is at least the other's.
ghost use Rattle.std.specs.Prelude.{◌≡◌, ◌≢◌, ◌↔◌, ◌≤◌, sum, IsTrue};
ghost use Rattle.std.specs.declared.cmp.Ordering.TheVariants.{Less};
ghost use Rattle.sp_defs.specs.Partition.{degree as degree_of, Dominates, compare};

use crate::{CAPACITY, Partition};

impl Partition {
    /// Whether each initial sum of the parts is at least that of `other`, which is of the same degree.
    ///
    /// Then `other` is not the later one in the lexicographic order.
    pub fn dominates(&self, other: &Partition) -> bool
        requires { degree_of self.now ≡ degree_of other.now }
        ensures sums { IsTrue result ↔ Dominates self.now other.now }
        ensures order { IsTrue result → compare self.now other.now ≢ Less }
    {
        sums_stay_above(self.parts(), other.parts())
    }
}

// Whether no initial sum of the first list is below that of the second.
fn sums_stay_above(upper: &[u8], lower: &[u8]) -> bool
    requires one_sum { sum upper.now ≡ sum lower.now }
    requires small { sum upper.now ≤ CAPACITY }
    ensures { IsTrue result ↔ Dominates upper.now lower.now }
{
    let mut upper_sum = 0;
    let mut lower_sum = 0;
    // Past the end of either list the sums no longer cross: one of them is the whole.
    for (part, other) in upper.iter().zip(lower) {
        upper_sum += *part;
        lower_sum += *other;
        if upper_sum < lower_sum {
            return false;
        }
    }
    true
}

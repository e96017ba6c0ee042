// Partitions are ordered by degree, and those of one degree lexicographically.
ghost use Rattle.std.specs.Prelude.{nat_eq};
ghost use Rattle.std.specs.Ordering.{as_partial_cmp};
ghost use Rattle.std.specs.Cmp.Lexicographic.{pointwise};
ghost use Rattle.sp_defs.specs.Partition.{order};
ghost use Rattle.sp_partition.specs.OrderLaws.{parts_equivalence, order_total, order_matches_eq, order_agrees};
ghost use Rattle.sp_partition.specs.OrderLaws.{order_laws, eq_laws};

use crate::Partition;
use std::cmp::Ordering;

impl PartialEq for Partition {
    ghost eq = { pointwise nat_eq };

    ghost laws = { eq_laws };

    fn eq(&self, other: &Partition) -> bool {
        self.compare_parts(other).is_eq()
    }
}

impl Eq for Partition {
    ghost laws = { parts_equivalence };
}

impl PartialOrd for Partition {
    ghost partial_cmp = { as_partial_cmp order };

    ghost laws = { order_laws };

    fn partial_cmp(&self, other: &Partition) -> Option<Ordering> {
        Some(self.cmp(other))
    }
}

impl Ord for Partition {
    ghost cmp = { order };

    ghost total = { order_total };

    ghost matches_partial_cmp = { order_agrees };

    ghost matches_eq = { order_matches_eq };

    fn cmp(&self, other: &Partition) -> Ordering {
        self.degree()
            .cmp(&other.degree())
            .then_with(|| self.compare_parts(other))
    }
}

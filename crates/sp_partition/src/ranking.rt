// Where a partition stands in a list of them.
ghost use Rattle.std.specs.Prelude.{◌≡◌, ◌↔◌, ℕ, ◌<◌, length, get_or, nat_eq, position, IsNone, Some, []};
ghost use Rattle.std.specs.Cmp.Lexicographic.{pointwise};
ghost use Rattle.std.specs.List.{Contains};
ghost use Rattle.std.specs.declared.cmp.Ordering.TheVariants.{Less};
ghost use Rattle.sp_defs.specs.Partition.{order};

use crate::Partition;

/// The index of `p` in a list that ascends strictly, by degree and then lexicographically.
///
/// None exactly where `p` isn't in the list.
pub fn rank(list: &[Partition], p: &Partition) -> Option<usize>
    requires { (i j : ℕ) → i < j → j < length list.now →
        order (get_or list.now i []) (get_or list.now j []) ≡ Less }
    ensures none { IsNone result ↔ ¬ Contains list.now p.now }
    ensures some { (k : ℕ) → (result ≡ Some k) ↔ ((k < length list.now) × (get_or list.now k [] ≡ p.now)) }
{
    list.binary_search(p).ok()
}

/// The index of the first of the list that is `p`, where the list has any order. None where `p` isn't in it.
pub fn place_in(list: &[Partition], p: &Partition) -> Option<usize>
    ensures { result ≡ position (λ other. pointwise nat_eq other p.now) list.now }
{
    list.iter().position(|other| other == p)
}

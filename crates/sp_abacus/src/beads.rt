// The beads: their numbers, those of one runner, and those slid down.
ghost use Rattle.std.specs.Prelude.{◌≡◌, ℕ, ◌+◌, ◌<◌, ◌≤◌, length, slice_index};
ghost use Rattle.sp_defs.specs.Partition.{degree as degree_of};
ghost use Rattle.sp_defs.specs.Abacus.{beads as beads_of, beta as beta_of, runner as runner_of, slid as slid_of};
ghost use Rattle.sp_defs.specs.Abacus.{shown as shown_of};
ghost use Rattle.sp_abacus_law.specs.Beads.{numbers as numbers_of, Falls};
ghost use Rattle.sp_partition.specs.Held.{IsHeld};

use arrayvec::ArrayVec;
use sp_partition::Partition;

// Above all numbers of beads, slid down or not.
pub(crate) const NUMBERS_END: u8 = 96;

/// The beta numbers, from the greatest to the least.
pub fn beta(e: u8, p: &Partition) -> ArrayVec<u8, 64>
    requires e_least { 2 ≤ e }
    requires e_most { e ≤ 64 }
    ensures numbers { result.items ≡ beta_of e p.now }
    ensures falls { Falls result.items }
    ensures held { IsHeld p.now }
{
    numbers(p, bead_count(e, p))
}

// The numbers of so many beads, from the greatest to the least.
pub(crate) fn numbers(p: &Partition, count: u8) -> ArrayVec<u8, 64>
    requires { count ≤ 64 }
    ensures { result.items ≡ numbers_of p.now count }
{
    let mut numbers = ArrayVec::new();
    for row in 1..count + 1 {
        numbers.push(p.part(row) + count - row);
    }
    numbers
}

// The least multiple of e that is at least the number of parts.
pub(crate) fn bead_count(e: u8, p: &Partition) -> u8
    requires e_least { 2 ≤ e }
    requires e_most { e ≤ 64 }
    ensures value { result ≡ beads_of e p.now }
    ensures small { result ≤ 64 }
    ensures held { IsHeld p.now }
{
    (p.row_count() + (e - 1)) / e * e
}

// The places of the beads on this runner, from the greatest to the least.
pub(crate) fn runner(e: u8, i: u8, numbers: &[u8]) -> ArrayVec<u8, 64>
    requires e_least { 2 ≤ e }
    requires few { length numbers.now ≤ 64 }
    ensures { result.items ≡ runner_of e numbers.now i }
{
    let mut places = ArrayVec::new();
    for number in numbers {
        if *number % e == i {
            places.push(*number / e);
        }
    }
    places
}

// The numbers of the beads after all have slid down, from the greatest to the least.
pub(crate) fn slid(e: u8, p: &Partition) -> ArrayVec<u8, 64>
    requires e_least { 2 ≤ e }
    requires e_most { e ≤ 64 }
    ensures numbers { result.items ≡ slid_of e p.now }
    ensures falls { Falls result.items }
    ensures small { degree_of (shown_of result.items) ≤ 32 }
{
    let heights = heights(e, beta(e, p).as_slice());
    let mut found = ArrayVec::new();
    for number in (0..NUMBERS_END).rev() {
        if number / e < heights[(number % e) as usize] {
            found.push(number);
        }
    }
    found
}

// How many beads each runner has. From e on there is none.
pub(crate) fn heights(e: u8, numbers: &[u8]) -> [u8; 64]
    requires e_least { 2 ≤ e }
    requires e_most { e ≤ 64 }
    requires few { length numbers.now ≤ 64 }
    ensures { (i : ℕ) → i < 64 → slice_index result i ≡ length (runner_of e numbers.now i) }
{
    let mut counts = [0; 64];
    for number in numbers {
        counts[(*number % e) as usize] += 1;
    }
    counts
}

// Beads moved, and put in order again.
ghost use Rattle.std.specs.Prelude.{◌≡◌, ◌+◌, ◌<◌, ◌≤◌, length, slice_index, true};
ghost use Rattle.std.specs.Prelude.{pos, negsuc, ◌≤ℤ◌, ◌*ℤ◌};
ghost use Rattle.std.specs.List.{AllByRecursion};
ghost use Rattle.sp_module_defs.specs.Jantzen.{moved as moved_of, occurs as occurs_in, is_distinct as is_distinct_of};
ghost use Rattle.sp_module_defs.specs.Jantzen.{inversions as inversions_of, sorting_sign as sorting_sign_of};
ghost use Rattle.sp_module_defs.specs.Jantzen.{descending as descending_of};
ghost use Rattle.sp_jantzen.specs.Beads.{IsStep, count_greater as count_greater_of};

use arrayvec::ArrayVec;

// Above all numbers of beads, moved or not.
const NUMBERS_END: u8 = 192;

// The bead at place `from` comes down by `steps`, and the one at place `to` goes up by as many.
pub(crate) fn moved(numbers: &[u8], to: usize, from: usize, steps: u8) -> ArrayVec<u8, 64>
    requires step { IsStep numbers.now to from steps }
    requires few { length numbers.now ≤ 64 }
    requires small { slice_index numbers.now to + steps < 192 }
    ensures { result.items ≡ moved_of numbers.now to from steps }
{
    let mut after = ArrayVec::new();
    for number in numbers {
        after.push(*number);
    }
    let beads = after.as_mut_slice();
    beads[to] += steps;
    beads[from] -= steps;
    after
}

// Whether one of the numbers is this.
fn occurs(numbers: &[u8], number: u8) -> bool
    ensures { result ≡ occurs_in numbers.now number }
{
    numbers.iter().any(|other| *other == number)
}

// Whether no two of the numbers are equal.
pub(crate) fn is_distinct(numbers: &[u8]) -> bool
    ensures { result ≡ is_distinct_of numbers.now }
{
    for (place, number) in numbers.iter().enumerate() {
        if occurs(&numbers[place + 1..], *number) {
            return false;
        }
    }
    true
}

// How many of the numbers are greater than this.
fn count_greater(numbers: &[u8], number: u8) -> usize
    ensures { result ≡ count_greater_of number numbers.now }
{
    numbers.iter().filter(|other| number < **other).count()
}

// How many pairs of the numbers ascend.
fn inversions(numbers: &[u8]) -> usize
    requires { length numbers.now ≤ 64 }
    ensures { result ≡ inversions_of numbers.now }
{
    let mut count = 0;
    for (place, number) in numbers.iter().enumerate() {
        count += count_greater(&numbers[place + 1..], *number);
    }
    count
}

// The value times the sign of the permutation that makes the numbers descend.
pub(crate) fn signed(numbers: &[u8], value: i8) -> i8
    requires few { length numbers.now ≤ 64 }
    requires least { negsuc 0 ≤ℤ value }
    requires most { value ≤ℤ pos 1 }
    ensures { result ≡ sorting_sign_of numbers.now *ℤ value }
{
    if inversions(numbers) % 2 == 0 {
        value
    } else {
        -value
    }
}

// The numbers, which are distinct, from the greatest to the least.
pub(crate) fn descending(numbers: &[u8]) -> ArrayVec<u8, 64>
    requires distinct { is_distinct_of numbers.now ≡ true }
    requires few { length numbers.now ≤ 64 }
    requires small { AllByRecursion (λ x. x < 192) numbers.now }
    ensures { result.items ≡ descending_of numbers.now }
{
    let mut found = ArrayVec::new();
    for number in (0..NUMBERS_END).rev() {
        if occurs(numbers, number) {
            found.push(number);
        }
    }
    found
}

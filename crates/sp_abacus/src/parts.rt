// What the beads show: the core, the weight and the quotient.
ghost use Rattle.std.specs.Prelude.{◌≡◌, ◌+◌, ◌*◌, ◌≤◌, length};
ghost use Rattle.sp_defs.specs.Partition.{degree as degree_of};
ghost use Rattle.sp_defs.specs.Abacus.{shown as shown_of, core as core_of, weight as weight_of};
ghost use Rattle.sp_defs.specs.Abacus.{quotient as quotient_of};
ghost use Rattle.sp_abacus_law.specs.Beads.{Falls};

use crate::beads::{beta, runner, slid};
use arrayvec::ArrayVec;
use sp_partition::Partition;

/// What is left after all beads have slid down.
pub fn core(e: u8, p: &Partition) -> Partition
    requires e_least { 2 ≤ e }
    requires e_most { e ≤ 64 }
    ensures { result ≡ core_of e p.now }
{
    shown(slid(e, p).as_slice())
}

/// The nodes of the quotient, which are 1 for each `e` nodes that `core` takes off.
pub fn weight(e: u8, p: &Partition) -> u8
    requires e_least { 2 ≤ e }
    requires e_most { e ≤ 64 }
    ensures value { result ≡ weight_of e p.now }
    ensures degree { degree_of p.now ≡ degree_of (core_of e p.now) + e * result }
{
    (p.degree() - core(e, p).degree()) / e
}

/// For each runner from 0 on, the partition that its beads show.
pub fn quotient(e: u8, p: &Partition) -> ArrayVec<Partition, 64>
    requires e_least { 2 ≤ e }
    requires e_most { e ≤ 64 }
    ensures { result.items ≡ quotient_of e p.now }
{
    let numbers = beta(e, p);
    let mut found = ArrayVec::new();
    for i in 0..e {
        found.push(shown(runner(e, i, numbers.as_slice()).as_slice()));
    }
    found
}

/// The partition that beads with these numbers show, which are given from the greatest to the least.
pub fn shown(numbers: &[u8]) -> Partition
    requires falls { Falls numbers.now }
    requires few { length numbers.now ≤ 64 }
    requires small { degree_of (shown_of numbers.now) ≤ 32 }
    ensures { result ≡ shown_of numbers.now }
{
    Partition::from_parts(shown_parts(numbers).as_slice()).unwrap()
}

// Each number less the number of those below it, as long as that is positive.
fn shown_parts(numbers: &[u8]) -> ArrayVec<u8, 64>
    requires { length numbers.now ≤ 64 }
    ensures { result.items ≡ shown_of numbers.now }
{
    let mut parts = ArrayVec::new();
    let mut below = numbers.len() as u8;
    for number in numbers {
        below -= 1;
        if *number <= below {
            return parts;
        }
        parts.push(*number - below);
    }
    parts
}

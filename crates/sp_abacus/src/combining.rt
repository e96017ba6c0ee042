// The partition with a given core and a given quotient.
ghost use Rattle.std.specs.Prelude.{◌≡◌, ◌↔◌, ◌+◌, ◌*◌, ◌/◌, ◌%◌, ◌<◌, ◌≤◌, IfOk, ℕ, List, length, slice_index};
ghost use Rattle.std.specs.Prelude.{[], slice_index_or, sum_by};
ghost use Rattle.std.specs.List.{AllByRecursion};
ghost use Rattle.sp_defs.specs.Partition.{degree as degree_of, IsPartition};
ghost use Rattle.sp_defs.specs.Abacus.{core as core_of, quotient as quotient_of, shown as shown_of};
ghost use Rattle.sp_partition.specs.Held.{IsHeld};
ghost use Rattle.sp_abacus_law.specs.Beads.{numbers as numbers_of, Falls};
ghost use Rattle.sp_abacus_law.specs.Combined.{combined_beads, member};
ghost use Rattle.sp_abacus.specs.Fit.{Fit};

use crate::beads::{NUMBERS_END, bead_count, heights, numbers};
use crate::parts::{core, shown};
use arrayvec::ArrayVec;
use sp_partition::{DEGREE_LIMIT, Partition};

/// Why there is no partition with this core and quotient, in the order in which the reasons are looked for.
#[derive(Clone, Copy, Debug, PartialEq, Eq)]
pub enum CombineFault {
    /// The first is not its own core.
    NotCore,
    /// There are not `e` partitions in the quotient.
    WrongCount,
    /// The degree is past `DEGREE_LIMIT`.
    PastDegree,
}

/// The partition with this core and this quotient.
pub fn combine(e: u8, kappa: &Partition, quotient: &[Partition]) -> Result<Partition, CombineFault>
    requires e_least { 2 ≤ e }
    requires e_most { e ≤ 64 }
    // what it answers has just this core and this quotient
    ensures has { IfOk result (λ p. (core_of e p ≡ kappa.now) × (quotient_of e p ≡ quotient.now)) }
    // and a partition that has them, of a degree within the limit, is the answer
    ensures given_back { (lambda : List ℕ) → IsPartition lambda → degree_of lambda ≤ DEGREE_LIMIT →
        core_of e lambda ≡ kappa.now → quotient_of e lambda ≡ quotient.now → result ≡ Ok lambda }
    ensures not_core { (result ≡ Err CombineFault.NotCore) ↔ ¬ (core_of e kappa.now ≡ kappa.now) }
    ensures wrong_count { (result ≡ Err CombineFault.WrongCount)
        ↔ ((core_of e kappa.now ≡ kappa.now) × ¬ (length quotient.now ≡ e)) }
    ensures past_degree { (result ≡ Err CombineFault.PastDegree)
        ↔ ((core_of e kappa.now ≡ kappa.now) × (length quotient.now ≡ e)
        × (DEGREE_LIMIT < degree_of kappa.now + e * sum_by degree_of quotient.now)) }
{
    if core(e, kappa) != *kappa {
        return Err(CombineFault::NotCore);
    }
    if quotient.len() != e as usize {
        return Err(CombineFault::WrongCount);
    }
    if kappa.degree() as u32 + e as u32 * total_degree(quotient) > DEGREE_LIMIT as u32 {
        return Err(CombineFault::PastDegree);
    }
    Ok(shown(placed(e, kappa, quotient).as_slice()))
}

fn total_degree(partitions: &[Partition]) -> u32
    requires { length partitions.now ≤ 64 }
    ensures sum { result ≡ sum_by degree_of partitions.now }
    ensures small { result ≤ 2048 }
    ensures held { AllByRecursion IsHeld partitions.now }
{
    let mut total = 0;
    for partition in partitions {
        total += partition.degree() as u32;
    }
    total
}

fn total_rows(partitions: &[Partition]) -> u32
    requires { length partitions.now ≤ 64 }
    ensures sum { result ≡ sum_by length partitions.now }
    ensures small { result ≤ 2048 }
{
    let mut total = 0;
    for partition in partitions {
        total += partition.row_count() as u32;
    }
    total
}

// The numbers of the beads, from the greatest to the least. Each runner has as many as it has for the core, and they
// show its entry of the quotient.
fn placed(e: u8, kappa: &Partition, quotient: &[Partition]) -> ArrayVec<u8, 64>
    requires { Fit e kappa.now quotient.now }
    ensures numbers { result.items ≡ combined_beads e kappa.now quotient.now }
    ensures falls { Falls result.items }
    ensures small { degree_of (shown_of result.items) ≤ 32 }
{
    let count = bead_count(e, kappa) as u32 + total_rows(quotient) * e as u32;
    let heights = heights(e, numbers(kappa, count as u8).as_slice());
    let mut found = ArrayVec::new();
    for number in (0..NUMBERS_END).rev() {
        if is_taken(e, &heights, quotient, number) {
            found.push(number);
        }
    }
    found
}

// Whether a bead is placed at this number.
fn is_taken(e: u8, heights: &[u8; 64], quotient: &[Partition], number: u8) -> bool
    requires e_least { 2 ≤ e }
    requires e_most { e ≤ 64 }
    requires count { length quotient.now ≡ e }
    requires low { slice_index heights.now (number % e) ≤ 64 }
    ensures { result ≡ member (number / e)
        (numbers_of (slice_index_or quotient.now (number % e) []) (slice_index heights.now (number % e))) }
{
    let runner = (number % e) as usize;
    numbers(&quotient[runner], heights[runner])
        .as_slice()
        .contains(&(number / e))
}

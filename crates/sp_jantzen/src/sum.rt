// The sum of the terms, as a vector.
ghost use Rattle.std.specs.Prelude.{◌≡◌, ◌^◌, ◌<◌, ◌≤◌, IfOk, IsErrOf, OnOk, unsigned_abs, pos};
ghost use Rattle.std.specs.List.{AllByRecursion};
ghost use Rattle.sp_defs.specs.Partition.{degree as degree_of, IsPartition, IsPartitionOf};
ghost use Rattle.sp_defs.specs.Laurent.{monomial};
ghost use Rattle.sp_defs.specs.Power.{fock_vector, unit};
ghost use Rattle.sp_fock_law.specs.Addition.{scaled_sum, scaled_sum_weight};
ghost use Rattle.sp_module_defs.specs.Jantzen.{jantzen_sum, constants};

use crate::term::{Term, terms};
use sp_fock::{FockFault, Vector};
use sp_laurent::Laurent;
use sp_partition::Partition;
use std::alloc::{AllocError, Global};

/// The Jantzen sum of `p`, with constants as coefficients.
///
/// `e` is from 2 to 64. At degree 32 a sum has about a hundred terms at most.
pub fn jantzen(alloc: Global, e: u8, p: &Partition) -> Result<Vector, AllocError>
    requires e_least { 2 ≤ e }
    requires e_most { e ≤ 64 }
    ensures { IfOk result (λ v. v ≡ fock_vector (degree_of p.now) (jantzen_sum e p.now)) }
{
    match sum_of(alloc, p.degree(), &terms(alloc, e, p)?) {
        Ok(sum) => Ok(sum),
        Err(_) => Err(AllocError),
    }
}

// No sum of units passes this.
const LIMIT: u128 = u64::MAX as u128;

// The vector of this degree that has at each partition the sum of its coefficients.
fn sum_of(alloc: Global, degree: u8, terms: &[Term]) -> Result<Vector, FockFault>
    requires degrees { AllByRecursion (λ t. IsPartitionOf degree t.0) terms.now }
    requires units { AllByRecursion (λ t. unsigned_abs t.1 ≤ 1) terms.now }
    ensures sum { IfOk result (λ v. v ≡ fock_vector degree (constants terms.now)) }
    ensures fits { ¬ IsErrOf result FockFault.TooLarge }
{
    let mut sum = Vector::zero(alloc, degree);
    for (partition, coefficient) in terms {
        add_term(alloc, &mut sum, partition, *coefficient)?;
    }
    Ok(sum)
}

// Adds a coefficient at a partition.
fn add_term(
    alloc: Global,
    sum: &mut Vector,
    partition: &Partition,
    coefficient: i8,
) -> Result<(), FockFault>
    requires degree { sum.old.degree ≡ degree_of partition.now }
    requires partition { IsPartition partition.now }
    requires small { unsigned_abs coefficient ≤ 1 }
    requires weight { scaled_sum_weight sum.old (monomial (pos 0) coefficient)
        (fock_vector (degree_of partition.now) (unit partition.now)) < 2 ^ 64 }
    ensures sum { OnOk result (sum.new ≡ scaled_sum sum.old (monomial (pos 0) coefficient)
        (fock_vector (degree_of partition.now) (unit partition.now))) }
    ensures fits { ¬ IsErrOf result FockFault.TooLarge }
{
    let constant = Laurent::monomial(alloc, i128::from(coefficient), 0)?;
    let one = Vector::one(alloc, partition)?;
    sum.add_scaled(alloc, &constant, &one, LIMIT)
}

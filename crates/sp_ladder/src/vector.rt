// The ladder vector of an e-regular partition.
ghost use Rattle.std.specs.Prelude.{◌≡◌, ◌^◌, ◌<◌, ◌≤◌, true, [], IfOk, OnOk, IsErrOf};
ghost use Rattle.sp_defs.specs.Partition.{degree as degree_of, is_regular};
ghost use Rattle.sp_defs.specs.Power.{fock_vector, unit};
ghost use Rattle.sp_defs.specs.Ladder.{ladder_vector as ladder_vector_of, ladder_weight};
ghost use Rattle.sp_ladder.specs.Obeys.{ObeysLadderLaw};
ghost use Rattle.sp_partition.specs.Held.{IsHeld};

use crate::counting::ladders;
use sp_fock::Vector;
use sp_partition::Partition;
use sp_power::{PowerFault, induce};
use std::alloc::{AllocError, Global};

/// The ladder vector: divided powers on the empty partition, one for each ladder of mu, ascending.
///
/// `TooLarge` exactly where a coefficient of a partial ladder vector has a size past the limit.
pub fn ladder_vector(
    alloc: Global,
    e: u8,
    mu: &Partition,
    limit: u128,
) -> Result<Vector, PowerFault>
    requires e_least { 2 ≤ e }
    requires e_most { e ≤ 64 }
    requires regular { is_regular e mu.now ≡ true }
    requires least { 1 ≤ limit }
    requires most { limit < 2 ^ 127 }
    ensures vector { IfOk result (λ v. v ≡ fock_vector (degree_of mu.now) (ladder_vector_of e mu.now)) }
    ensures fits { OnOk result (ladder_weight e mu.now ≤ limit) }
    ensures too_large { IsErrOf result PowerFault.TooLarge → limit < ladder_weight e mu.now }
    // 1 at mu; all that is in it is dominated by mu, has mu's content, and positive coefficients
    ensures law { IfOk result (λ v. ObeysLadderLaw e mu.now v.entries) }
{
    let mut vector = first_vector(alloc, mu)?;
    let steps = ladders(e, mu);
    for step in steps.as_slice() {
        vector = match induce(alloc, e, step.residue, step.count, &vector, limit) {
            Ok(next) => next,
            Err(fault) => return Err(fault),
        };
    }
    Ok(vector)
}

// The vector before the first step.
fn first_vector(alloc: Global, mu: &Partition) -> Result<Vector, AllocError>
    ensures vector { IfOk result (λ v. v ≡ fock_vector 0 (unit [])) }
    ensures held { IsHeld mu.now }
{
    let _degree = mu.degree();
    Vector::one(alloc, &Partition::empty())
}

// The ladder vector of an e-regular partition, over ranks.
ghost use Rattle.std.specs.Prelude.{◌≡◌, ◌^◌, ◌<◌, ◌≤◌, true, IfOk, OnOk, IsErrOf};
ghost use Rattle.sp_defs.specs.Partition.{degree as degree_of, is_regular};
ghost use Rattle.sp_defs.specs.Power.{fock_vector};
ghost use Rattle.sp_defs.specs.Ladder.{ladder_vector as ladder_vector_of, ladder_weight};

use crate::induction::induce;
use crate::{Moves, RankVector};
use sp_ladder::ladders;
use sp_partition::Partition;
use sp_power::PowerFault;
use std::alloc::Global;

/// The ladder vector: divided powers on the empty partition, one for each ladder of mu, ascending.
///
/// `TooLarge` exactly where a coefficient of a partial ladder vector has a size past the limit.
pub fn ladder_vector(
    alloc: Global,
    moves: &Moves,
    e: u8,
    mu: &Partition,
    limit: u128,
) -> Result<RankVector, PowerFault>
    requires e_least { 2 ≤ e }
    requires e_most { e ≤ 64 }
    requires residues { moves.now.e ≡ e }
    requires degree { degree_of mu.now ≤ moves.now.degree }
    requires regular { is_regular e mu.now ≡ true }
    requires least { 1 ≤ limit }
    requires most { limit < 2 ^ 127 }
    ensures vector { IfOk result (λ v. v ≡ fock_vector (degree_of mu.now) (ladder_vector_of e mu.now)) }
    ensures fits { OnOk result (ladder_weight e mu.now ≤ limit) }
    ensures too_large { IsErrOf result PowerFault.TooLarge → limit < ladder_weight e mu.now }
{
    let _held = mu.degree();
    let mut vector = RankVector::one(alloc)?;
    let steps = ladders(e, mu);
    for step in steps.as_slice() {
        vector = match induce(alloc, moves, e, step.residue, step.count, &vector, limit) {
            Ok(next) => next,
            Err(fault) => return Err(fault),
        };
    }
    Ok(vector)
}

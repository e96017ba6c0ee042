// Mullineux images.
ghost use Rattle.std.specs.Prelude.{◌≡◌, ◌↔◌, ℕ, ◌≤◌, true, List};
ghost use Rattle.sp_defs.specs.Partition.{is_regular};
ghost use Rattle.sp_defs.specs.Signature.{mullineux as mullineux_of};
ghost use Rattle.sp_good.specs.Climb.{negated_path, Stops};

use crate::paths::path;
use crate::signature::cogood;
use sp_partition::{CAPACITY, Partition};

/// Where the way up to a Mullineux image stops. That this never comes is not claimed.
#[derive(Clone, Copy, Debug)]
pub struct NoPath {
    /// The number of additions made.
    pub step: u8,
    /// The negated residue that comes next.
    pub residue: u8,
    /// The partition reached, which has no cogood node of this residue.
    pub at: Partition,
}

/// The Mullineux image: from the empty partition, the cogood node of each residue of the path of `mu`, from the last to
/// the first and negated, is added in turn.
///
/// `NoPath` exactly where one is missing.
pub fn mullineux(e: u8, mu: &Partition) -> Result<Partition, NoPath>
    requires e_least { 2 ≤ e }
    requires e_most { e ≤ 64 }
    requires regular { is_regular e mu.now ≡ true }
    ensures image { (image : List ℕ) → (result ≡ Ok image) ↔ (mullineux_of e mu.now ≡ Some image) }
    ensures stop { (stop : NoPath) → (result ≡ Err stop) ↔ Stops e (negated_path e mu.now) stop }
{
    // the proof needs what the type keeps: a partition of at most the capacity
    prove!(mu.degree() <= CAPACITY);
    let residues = path(e, mu);
    let mut at = Partition::empty();
    let mut step = 0;
    for residue in residues.iter().rev() {
        let negated = (e - *residue) % e;
        match cogood(e, negated, &at) {
            Some(node) => at = at.add_node(node.row).unwrap(),
            None => {
                return Err(NoPath {
                    step,
                    residue: negated,
                    at,
                });
            }
        }
        step += 1;
    }
    Ok(at)
}

// Paths of good nodes down to the empty partition.
ghost use Rattle.std.specs.Prelude.{◌≡◌, ◌+◌, ◌-◌, ◌<◌, ◌≤◌, true, IfSome, length, option_map};
ghost use Rattle.std.specs.List.{AllByRecursion};
ghost use Rattle.sp_defs.specs.Partition.{degree as degree_of, part as part_of, is_regular};
ghost use Rattle.sp_defs.specs.Node.{is_removable};
ghost use Rattle.sp_defs.specs.Signature.{remove_node, least_good as least_good_of, path as path_of};
ghost use Rattle.sp_nodes.specs.Nodes.{pair};
ghost use Rattle.sp_good.specs.Climb.{found};

use crate::signature::good;
use arrayvec::ArrayVec;
use sp_nodes::Node;
use sp_partition::{CAPACITY, Partition};

/// The residues of the good nodes that are removed one after the other, each time the good node of the least residue
/// that has one, until nothing is left. It has one residue for each node of `mu`.
pub fn path(e: u8, mu: &Partition) -> ArrayVec<u8, 32>
    requires e_least { 2 ≤ e }
    requires e_most { e ≤ 64 }
    requires regular { is_regular e mu.now ≡ true }
    ensures residues { result.items ≡ path_of e mu.now }
    ensures below { AllByRecursion (λ i. i < e) result.items }
    ensures whole { length result.items ≡ degree_of mu.now }
{
    // the proof needs what the type keeps: a partition of at most the capacity
    prove!(mu.degree() <= CAPACITY);
    let mut residues = ArrayVec::new();
    let mut at = *mu;
    while let Some(step) = least_good(e, &at) {
        residues.push(step.residue);
        at = at.remove_node(step.node.row).unwrap();
    }
    residues
}

// A good node with its residue.
#[derive(Clone, Copy)]
struct Step {
    residue: u8,
    node: Node,
}

// The good node of the least residue that has one.
fn least_good(e: u8, p: &Partition) -> Option<Step>
    requires e_least { 2 ≤ e }
    requires e_most { e ≤ 64 }
    ensures step { option_map found result ≡ least_good_of e 0 e p.now }
    ensures below { IfSome result (λ s. s.residue < e) }
    ensures removable { IfSome result (λ s. is_removable p.now (s.node.row, part_of p.now s.node.row) ≡ true) }
    ensures regular { is_regular e p.now ≡ true →
        IfSome result (λ s. is_regular e (remove_node p.now (pair s.node)) ≡ true) }
{
    for residue in 0..e {
        if let Some(node) = good(e, residue, p) {
            return Some(Step { residue, node });
        }
    }
    None
}

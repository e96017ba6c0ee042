// The partitions that the partitions of a vector restrict to.
ghost use Rattle.std.specs.Prelude.{◌≡◌, ◌≤◌, ◌<◌, ◌++◌, true, map, flat_map, IfOk, OnOk};
ghost use Rattle.std.specs.List.{AllByRecursion};
ghost use Rattle.sp_defs.specs.Node.{is_removable};
ghost use Rattle.sp_defs.specs.Signature.{remove_node};
ghost use Rattle.sp_nodes.specs.Nodes.{pair as place_of};
ghost use Rattle.sp_sl2_law.specs.Marks.{shrunken};
ghost use Rattle.sp_sl2.specs.Targets.{AreTargets};

use sp_fock::Vector;
use sp_laurent::Laurent;
use sp_nodes::{Node, removable};
use sp_partition::Partition;
use std::alloc::{AllocError, Global};

/// The partitions with one node of residue `i` less than those of a vector, ascending, each once.
pub(crate) fn targets(alloc: Global, e: u8, i: u8, v: &Vector) -> Result<Vec<Partition>, AllocError>
    requires e_least { 2 ≤ e }
    requires e_most { e ≤ 64 }
    requires below { i < e }
    ensures { IfOk result (λ targets. AreTargets e i v.now.degree v.now.entries targets.items) }
{
    let mut found = all_targets(alloc, e, i, v.pairs())?;
    found.sort_unstable();
    found.dedup();
    Ok(found)
}

// The partitions with one node of residue `i` less, for each pair in turn.
fn all_targets(
    alloc: Global,
    e: u8,
    i: u8,
    pairs: &[(Partition, Laurent)],
) -> Result<Vec<Partition>, AllocError>
    requires e_least { 2 ≤ e }
    requires e_most { e ≤ 64 }
    requires below { i < e }
    ensures { IfOk result (λ found. found.items ≡ flat_map (λ t. shrunken e i t.0) pairs.now) }
{
    let mut found = Vec::new(alloc);
    for pair in pairs {
        push_targets(&mut found, &pair.0, &removable(e, i, &pair.0))?;
    }
    Ok(found)
}

// Adds the partition without each of these nodes.
fn push_targets(found: &mut Vec<Partition>, p: &Partition, nodes: &[Node]) -> Result<(), AllocError>
    requires { AllByRecursion (λ x. is_removable p.now x ≡ true) (map place_of nodes.now) }
    ensures { OnOk result (found.new.items ≡ found.old.items ++ map (remove_node p.now) (map place_of nodes.now)) }
{
    for node in nodes {
        found.push(p.remove_node(node.row).unwrap())?;
    }
    Ok(())
}

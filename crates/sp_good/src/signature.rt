// The signature of a residue, read with a count in place of taking out pairs.
ghost use Rattle.std.specs.Prelude.{◌≡◌, ◌↔◌, ◌+◌, ◌<◌, ◌≤◌, true, [], IfSome, length, map, option_map};
ghost use Rattle.sp_defs.specs.Partition.{part as part_of, is_regular};
ghost use Rattle.sp_defs.specs.Node.{is_addable, is_removable};
ghost use Rattle.sp_defs.specs.Signature.{reduced, removables, addables, first, signature, add_node, remove_node};
ghost use Rattle.sp_defs.specs.Signature.{normal as normal_of, good as good_of, cogood as cogood_of};
ghost use Rattle.sp_nodes.specs.Nodes.{pair};
ghost use Rattle.sp_nodes.specs.Marks.{mark_of};

use arrayvec::ArrayVec;
use sp_nodes::{Corner, Mark, Node, marks};
use sp_partition::{CAPACITY, Partition};

/// The normal nodes of residue `i`, from top to bottom: the removable nodes that are left in the signature once each
/// addable node is taken out with a removable node right after it, until there are no such neighbours.
pub fn normal(e: u8, i: u8, p: &Partition) -> ArrayVec<Node, 33>
    requires e_least { 2 ≤ e }
    requires e_most { e ≤ 64 }
    requires below { i < e }
    ensures { map pair result.items ≡ normal_of e i p.now }
{
    removable_left(&marks(e, i, p))
}

/// The good node of residue `i`: the lowest normal node. None where no removable node is left in the signature.
pub fn good(e: u8, i: u8, p: &Partition) -> Option<Node>
    requires e_least { 2 ≤ e }
    requires e_most { e ≤ 64 }
    requires below { i < e }
    ensures node { option_map pair result ≡ good_of e i p.now }
    ensures none { (result ≡ None) ↔ (normal_of e i p.now ≡ []) }
    ensures removable { IfSome result (λ x. is_removable p.now (x.row, part_of p.now x.row) ≡ true) }
    ensures regular { is_regular e p.now ≡ true →
        IfSome result (λ x. is_regular e (remove_node p.now (pair x)) ≡ true) }
{
    // the proof needs what the type keeps: a partition of at most the capacity
    prove!(p.degree() <= CAPACITY);
    normal(e, i, p).last().copied()
}

/// The cogood node of residue `i`: the highest addable node that is left in the signature, once pairs are taken out as
/// for [`normal`]. None where no addable node is left.
pub fn cogood(e: u8, i: u8, p: &Partition) -> Option<Node>
    requires e_least { 2 ≤ e }
    requires e_most { e ≤ 64 }
    requires below { i < e }
    ensures node { option_map pair result ≡ cogood_of e i p.now }
    ensures none { (result ≡ None) ↔ (addables (reduced (signature e i p.now)) ≡ []) }
    ensures addable { IfSome result (λ x. is_addable p.now (x.row, part_of p.now x.row + 1) ≡ true) }
    ensures regular { is_regular e p.now ≡ true →
        IfSome result (λ x. is_regular e (add_node p.now (pair x)) ≡ true) }
{
    // the proof needs what the type keeps: a partition of at most the capacity
    prove!(p.degree() <= CAPACITY);
    highest_addable_left(&marks(e, i, p))
}

// The removable nodes that are left, from top to bottom.
fn removable_left(marks: &[Mark]) -> ArrayVec<Node, 33>
    requires { length marks.now ≤ 33 }
    ensures { map pair result.items ≡ removables (reduced (map mark_of marks.now)) }
{
    let mut left = ArrayVec::new();
    // the addable nodes above that no removable node has gone out with
    let mut unpaired: usize = 0;
    for mark in marks {
        match mark.corner {
            Corner::Addable => unpaired += 1,
            Corner::Removable if unpaired > 0 => unpaired -= 1,
            Corner::Removable => left.push(mark.node),
        }
    }
    left
}

// The highest addable node that is left.
fn highest_addable_left(marks: &[Mark]) -> Option<Node>
    requires { length marks.now ≤ 33 }
    ensures { option_map pair result ≡ first (addables (reduced (map mark_of marks.now))) }
{
    let mut highest = None;
    // the removable nodes below that no addable node has gone out with
    let mut unpaired: usize = 0;
    for mark in marks.iter().rev() {
        match mark.corner {
            Corner::Removable => unpaired += 1,
            Corner::Addable if unpaired > 0 => unpaired -= 1,
            Corner::Addable => highest = Some(mark.node),
        }
    }
    highest
}

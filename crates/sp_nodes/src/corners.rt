ghost use Rattle.std.specs.Prelude.{◌≡◌, ◌<◌, ◌≤◌, [], ◌∷◌, ◌++◌, map, option_to_list};
ghost use Rattle.arrayvec.specs.ArrayVec.{array_vec_len};
ghost use Rattle.sp_defs.specs.Node.{addable as addable_of, removable as removable_of};
ghost use Rattle.sp_defs.specs.Signature.{signature, row_marks};
ghost use Rattle.sp_nodes.specs.Nodes.{pair, of_residue, IsPlace};
ghost use Rattle.sp_nodes.specs.Marks.{mark_of};
ghost use Rattle.sp_nodes.specs.Rows.{gained, lost};

use crate::node::{Node, residue};
use arrayvec::ArrayVec;
use sp_partition::Partition;

/// Whether a node can be added to a diagram, or removed from it.
#[derive(Clone, Copy, Debug, Default, PartialEq, Eq)]
pub enum Corner {
    #[default]
    Addable,
    Removable,
}

/// An addable or a removable node.
#[derive(Clone, Copy, Debug, Default, PartialEq, Eq)]
pub struct Mark {
    pub corner: Corner,
    pub node: Node,
}

/// The addable nodes of residue `i`, from top to bottom.
pub fn addable(e: u8, i: u8, p: &Partition) -> ArrayVec<Node, 33>
    requires e_least { 2 ≤ e }
    requires e_most { e ≤ 64 }
    requires below { i < e }
    ensures { map pair result.items ≡ of_residue e i (addable_of p.now) }
{
    let mut found = ArrayVec::new();
    for row in 1..p.row_count() + 2 {
        push_if_some(&mut found, addable_in_row(e, i, p, row));
    }
    found
}

/// The removable nodes of residue `i`, from top to bottom.
pub fn removable(e: u8, i: u8, p: &Partition) -> ArrayVec<Node, 33>
    requires e_least { 2 ≤ e }
    requires e_most { e ≤ 64 }
    requires below { i < e }
    ensures { map pair result.items ≡ of_residue e i (removable_of p.now) }
{
    let mut found = ArrayVec::new();
    for row in 1..p.row_count() + 1 {
        push_if_some(&mut found, removable_in_row(e, i, p, row));
    }
    found
}

/// The signature of residue `i`: its addable and removable nodes, from top to bottom.
pub fn marks(e: u8, i: u8, p: &Partition) -> ArrayVec<Mark, 33>
    requires e_least { 2 ≤ e }
    requires e_most { e ≤ 64 }
    requires below { i < e }
    ensures { map mark_of result.items ≡ signature e i p.now }
{
    let mut found = ArrayVec::new();
    for row in 1..p.row_count() + 2 {
        push_if_some(&mut found, mark_in_row(e, i, p, row));
    }
    found
}

fn push_if_some<T: Drop>(found: &mut ArrayVec<T, 33>, here: Option<T>)
    requires { array_vec_len found.old < 33 }
    ensures { found.new.items ≡ found.old.items ++ option_to_list here }
{
    if let Some(element) = here {
        found.push(element);
    }
}

fn addable_in_row(e: u8, i: u8, p: &Partition, row: u8) -> Option<Node>
    requires e_least { 2 ≤ e }
    requires e_most { e ≤ 64 }
    requires row_least { 1 ≤ row }
    requires row_most { row ≤ 33 }
    ensures { map pair (option_to_list result) ≡ gained e i p.now row }
{
    if p.can_grow(row) {
        if_residue(e, i, row, p.part(row) + 1)
    } else {
        None
    }
}

fn removable_in_row(e: u8, i: u8, p: &Partition, row: u8) -> Option<Node>
    requires e_least { 2 ≤ e }
    requires e_most { e ≤ 64 }
    requires row_least { 1 ≤ row }
    requires row_most { row ≤ 33 }
    ensures { map pair (option_to_list result) ≡ lost e i p.now row }
{
    if p.can_shrink(row) {
        if_residue(e, i, row, p.part(row))
    } else {
        None
    }
}

// The node there, where its residue is `i`.
fn if_residue(e: u8, i: u8, row: u8, column: u8) -> Option<Node>
    requires e_least { 2 ≤ e }
    requires e_most { e ≤ 64 }
    requires place { IsPlace (record { row = row; column = column }) }
    ensures { map pair (option_to_list result) ≡ of_residue e i ((row, column) ∷ []) }
{
    let node = Node { row, column };
    if residue(e, node) == i {
        Some(node)
    } else {
        None
    }
}

// A row never has two marks, since its last node and the place after it have different residues.
fn mark_in_row(e: u8, i: u8, p: &Partition, row: u8) -> Option<Mark>
    requires e_least { 2 ≤ e }
    requires e_most { e ≤ 64 }
    requires row_least { 1 ≤ row }
    requires row_most { row ≤ 33 }
    ensures { map mark_of (option_to_list result) ≡ row_marks e i p.now row }
{
    if let Some(node) = removable_in_row(e, i, p, row) {
        return Some(Mark {
            corner: Corner::Removable,
            node,
        });
    }
    match addable_in_row(e, i, p, row) {
        Some(node) => Some(Mark {
            corner: Corner::Addable,
            node,
        }),
        None => None,
    }
}

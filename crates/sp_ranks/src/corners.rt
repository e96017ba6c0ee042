// The addable and removable nodes of a partition, each with its residue.
ghost use Rattle.std.specs.Prelude.{◌≡◌, ◌+◌, ◌<◌, ◌≤◌, [], ◌∷◌, ◌++◌, cond, map, filter, length, nat_eq, IfOk, OnOk};
ghost use Rattle.std.specs.List.{AllByRecursion};
ghost use Rattle.sp_defs.specs.Node.{is_addable, is_removable, residue as residue_of};
ghost use Rattle.sp_defs.specs.Partition.{part as part_of};
ghost use Rattle.sp_defs.specs.Signature.{Addable as A, Removable as R};
ghost use Rattle.sp_nodes.specs.Nodes.{pair, IsPlace};
ghost use Rattle.sp_ranks.specs.Corners.{mark_at, AreCorners, HasResidue};

use arrayvec::ArrayVec;
use sp_nodes::{Corner, Mark, Node, residue};
use sp_partition::Partition;
use std::alloc::{AllocError, Global};

/// An addable or a removable node, and its residue.
#[derive(Clone, Copy)]
pub(crate) struct CornerNode {
    pub(crate) mark: Mark,
    pub(crate) residue: u8,
}

/// Those of a partition, from top to bottom.
pub(crate) fn corners_of(alloc: Global, e: u8, p: &Partition) -> Result<Vec<CornerNode>, AllocError>
    requires e_least { 2 ≤ e }
    requires e_most { e ≤ 64 }
    ensures { IfOk result (λ corners. AreCorners e p.now corners.items) }
{
    let mut corners = Vec::new(alloc);
    for row in 1..p.row_count() + 2 {
        push_removable(&mut corners, e, p, row)?;
        push_addable(&mut corners, e, p, row)?;
    }
    Ok(corners)
}

fn push_removable(
    corners: &mut Vec<CornerNode>,
    e: u8,
    p: &Partition,
    row: u8,
) -> Result<(), AllocError>
    requires e_least { 2 ≤ e }
    requires e_most { e ≤ 64 }
    requires row_least { 1 ≤ row }
    requires row_most { row ≤ 33 }
    ensures marks { OnOk result (map mark_at corners.new.items ≡ map mark_at corners.old.items
        ++ cond (is_removable p.now (row, part_of p.now row)) ((R, (row, part_of p.now row)) ∷ []) []) }
    ensures residues { OnOk result
        (AllByRecursion (HasResidue e) corners.old.items → AllByRecursion (HasResidue e) corners.new.items) }
{
    if !p.can_shrink(row) {
        return Ok(());
    }
    corners.push(corner_node(e, Corner::Removable, row, p.part(row)))?;
    Ok(())
}

fn push_addable(
    corners: &mut Vec<CornerNode>,
    e: u8,
    p: &Partition,
    row: u8,
) -> Result<(), AllocError>
    requires e_least { 2 ≤ e }
    requires e_most { e ≤ 64 }
    requires row_least { 1 ≤ row }
    requires row_most { row ≤ 33 }
    ensures marks { OnOk result (map mark_at corners.new.items ≡ map mark_at corners.old.items
        ++ cond (is_addable p.now (row, part_of p.now row + 1)) ((A, (row, part_of p.now row + 1)) ∷ []) []) }
    ensures residues { OnOk result
        (AllByRecursion (HasResidue e) corners.old.items → AllByRecursion (HasResidue e) corners.new.items) }
{
    if !p.can_grow(row) {
        return Ok(());
    }
    corners.push(corner_node(e, Corner::Addable, row, p.part(row) + 1))?;
    Ok(())
}

fn corner_node(e: u8, corner: Corner, row: u8, column: u8) -> CornerNode
    requires e_least { 2 ≤ e }
    requires e_most { e ≤ 64 }
    requires place { IsPlace (record { row = row; column = column }) }
    ensures mark { result.mark ≡ record { corner = corner; node = record { row = row; column = column } } }
    ensures residue { HasResidue e result }
{
    let node = Node { row, column };
    CornerNode {
        mark: Mark { corner, node },
        residue: residue(e, node),
    }
}

/// The marks of those whose residue is `i`.
pub(crate) fn marks_among(corners: &[CornerNode], i: u8) -> ArrayVec<Mark, 33>
    requires { length (filter (λ s. nat_eq s.residue i) corners.now) ≤ 33 }
    ensures { result.items ≡ map (λ s. s.mark) (filter (λ s. nat_eq s.residue i) corners.now) }
{
    let mut found = ArrayVec::new();
    for corner in corners {
        if corner.residue == i {
            found.push(corner.mark);
        }
    }
    found
}

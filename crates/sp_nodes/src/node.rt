ghost use Rattle.std.specs.Prelude.{◌≡◌, ◌≢◌, ◌+◌, ◌<◌, ◌≤◌};
ghost use Rattle.sp_defs.specs.Node.{residue as residue_of};
ghost use Rattle.sp_nodes.specs.Nodes.{pair, IsPlace};

/// A place in the grid of rows and columns, each counted from 1, rows from the top.
#[derive(Clone, Copy, Debug, Default, PartialEq, Eq, PartialOrd, Ord)]
pub struct Node {
    pub row: u8,
    pub column: u8,
}

/// (column - row) mod `e`. The places to the right and below have other residues.
#[tactic(auto, using(sp_shapes::proofs::Residues::right_differs, sp_shapes::proofs::Residues::below_differs))]
pub fn residue(e: u8, node: Node) -> u8
    requires e_least { 2 ≤ e }
    requires e_most { e ≤ 64 }
    requires place { IsPlace node }
    ensures value { result ≡ residue_of e (pair node) }
    ensures small { result < e }
    ensures right { residue_of e (node.row, node.column + 1) ≢ result }
    ensures below { residue_of e (node.row + 1, node.column) ≢ result }
{
    let row = u16::from(node.row);
    let column = u16::from(node.column);
    let e = u16::from(e);
    // e * row keeps the difference from being negative
    ((column + e * row - row) % e) as u8
}

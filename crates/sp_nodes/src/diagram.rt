ghost use Rattle.std.specs.Prelude.{◌≡◌, ℕ, ◌+◌, ◌<◌, ◌≤◌, ◌++◌, All, IsTrue, map, slice_index};
ghost use Rattle.std.specs.List.{range_with_len};
ghost use Rattle.arrayvec.specs.ArrayVec.{array_vec_len};
ghost use Rattle.sp_defs.specs.Partition.{IsPartition};
ghost use Rattle.sp_defs.specs.Node.{nodes as nodes_of, in_diagram, content as content_of, hook as hook_of};
ghost use Rattle.sp_shapes.proofs.Columns.{column as column_of};
ghost use Rattle.sp_nodes.specs.Nodes.{pair, IsPlace};
ghost use Rattle.sp_nodes.specs.Rows.{row_nodes};

use crate::node::{Node, residue};
use arrayvec::ArrayVec;
use sp_partition::Partition;

/// The nodes of the diagram, row by row.
pub fn nodes(p: &Partition) -> ArrayVec<Node, 32>
    ensures nodes { map pair result.items ≡ nodes_of p.now }
    ensures places { All IsPlace result.items }
{
    let mut found = ArrayVec::new();
    for row in 1..p.row_count() + 1 {
        push_row(&mut found, row, p.part(row));
    }
    found
}

fn push_row(found: &mut ArrayVec<Node, 32>, row: u8, length: u8)
    requires row_least { 1 ≤ row }
    requires row_most { row ≤ 33 }
    requires room { array_vec_len found.old + length ≤ 32 }
    ensures nodes { map pair found.new.items ≡ map pair found.old.items ++ row_nodes row length }
    ensures len { array_vec_len found.new ≡ array_vec_len found.old + length }
    ensures places { All IsPlace found.old.items → All IsPlace found.new.items }
{
    for column in 1..length + 1 {
        found.push(Node { row, column });
    }
}

/// How many nodes have each residue from 0 to `e - 1`.
pub fn content(e: u8, p: &Partition) -> ArrayVec<u8, 64>
    requires e_least { 2 ≤ e }
    requires e_most { e ≤ 64 }
    ensures { result.items ≡ map (content_of e p.now) (range_with_len 0 e) }
{
    let counts = tally(e, p);
    let mut listed = ArrayVec::new();
    for i in 0..e {
        listed.push(counts[i as usize]);
    }
    listed
}

// The counts by residue. From e on they are 0.
fn tally(e: u8, p: &Partition) -> [u8; 64]
    requires e_least { 2 ≤ e }
    requires e_most { e ≤ 64 }
    ensures { (i : ℕ) → i < 64 → slice_index result i ≡ content_of e p.now i }
{
    let mut counts = [0; 64];
    for node in nodes(p).as_slice() {
        counts[residue(e, *node) as usize] += 1;
    }
    counts
}

/// One more than the nodes to the right of this node and below it.
pub fn hook(p: &Partition, node: Node) -> u8
    requires { IsTrue (in_diagram p.now (pair node)) }
    ensures { result ≡ hook_of p.now (pair node) }
{
    let right = p.part(node.row) - node.column;
    let below = column_length(p, node.column) - node.row;
    right + below + 1
}

// The length of this column, counted from 1.
fn column_length(p: &Partition, column: u8) -> u8
    ensures value { result ≡ column_of p.now column }
    ensures small { result ≤ 32 }
    ensures partition { IsPartition p.now }
{
    count_from(p.parts(), column) as u8
}

fn count_from(parts: &[u8], least: u8) -> usize
    ensures { result ≡ column_of parts.now least }
{
    parts.iter().filter(|part| **part >= least).count()
}

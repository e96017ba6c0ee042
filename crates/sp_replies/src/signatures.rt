// Answers on normal, good and cogood nodes.
ghost use Rattle.std.specs.Prelude.{◌≡◌, ◌++◌, ◌≤◌, ◌<◌, OnOk, true, map, option_map};
ghost use Rattle.sp_defs.specs.Partition.{is_regular};
ghost use Rattle.sp_nodes.specs.Nodes.{pair};
ghost use Rattle.sp_replies.specs.Signatures.{good_text, residue_line, nodes_line, node_text, node_or_dash};
ghost use Rattle.sp_replies.specs.Signatures.{path_text, mullineux_text};
ghost use Rattle.sp_replies.specs.Words.{dash_or_words};

use crate::orders::put_line;
use crate::refusals::{Refusal, put_refusal};
use crate::words::{Word, put_words};
use sp_good::{cogood, good, mullineux, normal, path};
use sp_nodes::{Node, marks};
use sp_partition::Partition;
use std::alloc::{AllocError, Global};

/// A line for each residue with an addable or removable node: its normal nodes, its good node and its cogood node.
/// An `Err` leaves `out` unspecified, here and below.
pub fn put_good(alloc: Global, e: u8, p: &Partition, out: &mut Vec<u8>) -> Result<(), AllocError>
    requires e_least { 2 ≤ e }
    requires e_most { e ≤ 64 }
    ensures { OnOk result (out.new.items ≡ out.old.items ++ good_text e p.now) }
{
    for i in 0..e {
        put_residue(alloc, e, i, p, out)?;
    }
    Ok(())
}

// Nothing where the residue has no addable and no removable node.
fn put_residue(
    alloc: Global,
    e: u8,
    i: u8,
    p: &Partition,
    out: &mut Vec<u8>,
) -> Result<(), AllocError>
    requires e_least { 2 ≤ e }
    requires e_most { e ≤ 64 }
    requires below { i < e }
    ensures { OnOk result (out.new.items ≡ out.old.items ++ residue_line e p.now i) }
{
    if marks(e, i, p).is_empty() {
        return Ok(());
    }
    let normals = normal(e, i, p);
    put_signature(
        alloc,
        i,
        normals.as_slice(),
        good(e, i, p),
        cogood(e, i, p),
        out,
    )
}

// The normal nodes of a residue, its good node and its cogood node.
fn put_signature(
    alloc: Global,
    i: u8,
    normals: &[Node],
    good: Option<Node>,
    cogood: Option<Node>,
    out: &mut Vec<u8>,
) -> Result<(), AllocError>
    ensures { OnOk result (out.new.items ≡ out.old.items
        ++ nodes_line i (map pair normals.now) (option_map pair good) (option_map pair cogood)) }
{
    i.put(alloc, out)?;
    out.extend_from_slice(b" normal ")?;
    put_nodes(alloc, normals, out)?;
    out.extend_from_slice(b" good ")?;
    put_node(alloc, good, out)?;
    out.extend_from_slice(b" cogood ")?;
    put_node(alloc, cogood, out)?;
    out.extend_from_slice(b"\n")
}

fn put_nodes(alloc: Global, nodes: &[Node], out: &mut Vec<u8>) -> Result<(), AllocError>
    ensures { OnOk result (out.new.items ≡
        out.old.items ++ dash_or_words (map node_text (map pair nodes.now))) }
{
    put_words(alloc, nodes, out)
}

// A node, and a dash where there is none.
fn put_node(alloc: Global, node: Option<Node>, out: &mut Vec<u8>) -> Result<(), AllocError>
    ensures { OnOk result (out.new.items ≡ out.old.items ++ node_or_dash (option_map pair node)) }
{
    match node {
        Some(node) => node.put(alloc, out),
        None => out.extend_from_slice(b"-"),
    }
}

/// The residues of the path.
pub fn put_path(alloc: Global, e: u8, mu: &Partition, out: &mut Vec<u8>) -> Result<(), AllocError>
    requires e_least { 2 ≤ e }
    requires e_most { e ≤ 64 }
    requires regular { is_regular e mu.now ≡ true }
    ensures { OnOk result (out.new.items ≡ out.old.items ++ path_text e mu.now) }
{
    put_words(alloc, path(e, mu).as_slice(), out)?;
    out.extend_from_slice(b"\n")
}

/// The Mullineux image, or that the path of the negated residues stops.
pub fn put_image(alloc: Global, e: u8, mu: &Partition, out: &mut Vec<u8>) -> Result<(), AllocError>
    requires e_least { 2 ≤ e }
    requires e_most { e ≤ 64 }
    requires regular { is_regular e mu.now ≡ true }
    ensures { OnOk result (out.new.items ≡ out.old.items ++ mullineux_text e mu.now) }
{
    match mullineux(e, mu) {
        Ok(image) => put_line(alloc, &image, out),
        Err(_) => put_refusal(alloc, &Refusal::NoPath, out),
    }
}

// The texts of a diagram, with a number at each node.
ghost use Rattle.std.specs.Prelude.{◌≡◌, ◌<◌, ◌≤◌, ◌++◌, cond, [], codes, length, take, IsTrue, OnOk, OnErr};
ghost use Rattle.std.specs.Fmt.{decimal};
ghost use Rattle.sp_defs.specs.Node.{in_diagram};
ghost use Rattle.sp_nodes.specs.Nodes.{pair, IsPlace};
ghost use Rattle.sp_nodes.specs.Texts.{row_line, grid_text};
ghost use Rattle.sp_nodes.specs.Texts.{diagram_text as diagram_text_of, hooks_text as hooks_text_of};
ghost use Rattle.sp_nodes.specs.Filling.{number_at as number_of, IsFilling};

use crate::diagram::hook;
use crate::node::{Node, residue};
use itoa::Buffer;
use sp_partition::Partition;
use std::alloc::{AllocError, Global};

/// Appends a line for each row with the residues of its nodes, and for the empty partition a line with a dash. An
/// `Err` leaves `out` as it was.
pub fn diagram_text(
    _alloc: Global,
    e: u8,
    p: &Partition,
    out: &mut Vec<u8>,
) -> Result<(), AllocError>
    requires e_least { 2 ≤ e }
    requires e_most { e ≤ 64 }
    ensures text { OnOk result (out.new.items ≡ out.old.items ++ diagram_text_of e p.now) }
    ensures kept { OnErr result (out.new.items ≡ out.old.items) }
{
    put_grid(Filling::Residues(e), p, out)
}

/// Appends a line for each row with the hook lengths of its nodes, and for the empty partition a line with a dash. An
/// `Err` leaves `out` as it was.
pub fn hooks_text(_alloc: Global, p: &Partition, out: &mut Vec<u8>) -> Result<(), AllocError>
    ensures text { OnOk result (out.new.items ≡ out.old.items ++ hooks_text_of p.now) }
    ensures kept { OnErr result (out.new.items ≡ out.old.items) }
{
    put_grid(Filling::HookLengths, p, out)
}

// What stands at the nodes.
#[derive(Clone, Copy)]
enum Filling {
    Residues(u8),
    HookLengths,
}

fn put_grid(filling: Filling, p: &Partition, out: &mut Vec<u8>) -> Result<(), AllocError>
    requires { IsFilling filling }
    ensures text { OnOk result (out.new.items ≡ out.old.items ++ grid_text (number_of filling p.now) p.now) }
    ensures kept { OnErr result (out.new.items ≡ out.old.items) }
{
    let length = out.len();
    let written = put_rows(filling, p, out);
    if written.is_err() {
        out.truncate(length);
    }
    written
}

// An `Err` may leave more at the end of `out`, here and below.
fn put_rows(filling: Filling, p: &Partition, out: &mut Vec<u8>) -> Result<(), AllocError>
    requires { IsFilling filling }
    ensures text { OnOk result (out.new.items ≡ out.old.items ++ grid_text (number_of filling p.now) p.now) }
    ensures kept { OnErr result (take (length out.old.items) out.new.items ≡ out.old.items) }
{
    if p.row_count() == 0 {
        return out.extend_from_slice(b"-\n");
    }
    for row in 1..p.row_count() + 1 {
        put_line(filling, p, row, out)?;
    }
    Ok(())
}

fn put_line(filling: Filling, p: &Partition, row: u8, out: &mut Vec<u8>) -> Result<(), AllocError>
    requires filling { IsFilling filling }
    requires row_least { 1 ≤ row }
    requires row_most { row ≤ 32 }
    ensures text { OnOk result (out.new.items ≡ out.old.items ++ row_line (number_of filling p.now) p.now row) }
    ensures kept { OnErr result (take (length out.old.items) out.new.items ≡ out.old.items) }
{
    for column in 1..p.part(row) + 1 {
        let number = number_at(filling, p, Node { row, column });
        put_after(column > 1, number, out)?;
    }
    out.push(b'\n')?;
    Ok(())
}

// Appends the number, after a space where others stand before it.
fn put_after(later: bool, number: u8, out: &mut Vec<u8>) -> Result<(), AllocError>
    ensures text { OnOk result (out.new.items ≡ out.old.items ++ (cond later (codes " ") [] ++ decimal number)) }
    ensures kept { OnErr result (take (length out.old.items) out.new.items ≡ out.old.items) }
{
    if later {
        out.push(b' ')?;
    }
    let mut buffer = Buffer::new();
    out.extend_from_slice(buffer.format(number).as_bytes())
}

fn number_at(filling: Filling, p: &Partition, node: Node) -> u8
    requires filling { IsFilling filling }
    requires place { IsPlace node }
    requires inside { IsTrue (in_diagram p.now (pair node)) }
    ensures { result ≡ number_of filling p.now (pair node) }
{
    match filling {
        Filling::Residues(e) => residue(e, node),
        Filling::HookLengths => hook(p, node),
    }
}

// Answers on the nodes of a diagram.
ghost use Rattle.std.specs.Prelude.{◌≡◌, ◌++◌, ◌≤◌, OnOk};
ghost use Rattle.sp_replies.specs.Diagrams.{content_text};

use crate::words::put_words;
use sp_nodes::content;
use sp_partition::Partition;
use std::alloc::{AllocError, Global};

/// How many nodes have each residue from 0 on. An `Err` leaves `out` unspecified.
pub fn put_content(alloc: Global, e: u8, p: &Partition, out: &mut Vec<u8>) -> Result<(), AllocError>
    requires e_least { 2 ≤ e }
    requires e_most { e ≤ 64 }
    ensures { OnOk result (out.new.items ≡ out.old.items ++ content_text e p.now) }
{
    put_words(alloc, content(e, p).as_slice(), out)?;
    out.extend_from_slice(b"\n")
}

// The lines before blocks, and the lines that name columns.
ghost use Rattle.std.specs.Prelude.{◌≡◌, ◌++◌, ◌≤◌, IfOk, OnOk};
ghost use Rattle.sp_cert.specs.Grammar.{head_text, is_text};
ghost use Rattle.sp_cert.specs.Drafts.{head_of};

use crate::lines::{put_block, put_column};
use sp_partition::Partition;
use std::alloc::{AllocError, Global};

/// A line that is awaited in its place.
#[derive(Clone, Copy, Debug)]
pub(crate) enum Head {
    /// The line before the block whose least e-regular partition this is.
    Block(Partition),
    /// The line that names the column of this partition.
    Column(Partition),
}

/// Whether a line is this one.
pub(crate) fn is_head(alloc: Global, e: u8, head: &Head, text: &[u8]) -> Result<bool, AllocError>
    requires e_least { 2 ≤ e }
    requires e_most { e ≤ 64 }
    ensures { IfOk result (λ same. same ≡ is_text text.now (head_text e (head_of head.now))) }
{
    let mut printed = Vec::new(alloc);
    put_head(alloc, e, head, &mut printed)?;
    Ok(text == printed.as_slice())
}

// Appends the line, without its newline.
fn put_head(alloc: Global, e: u8, head: &Head, out: &mut Vec<u8>) -> Result<(), AllocError>
    requires e_least { 2 ≤ e }
    requires e_most { e ≤ 64 }
    ensures { OnOk result (out.new.items ≡ out.old.items ++ head_text e (head_of head.now)) }
{
    match head {
        Head::Block(mu) => put_block(e, mu, out),
        Head::Column(mu) => put_column(alloc, mu, out),
    }
}

// Words in a row.
ghost use Rattle.std.specs.Prelude.{◌≡◌, ◌++◌, ℕ, List, OnOk, map, flat_map};
ghost use Rattle.std.specs.Fmt.{decimal};
ghost use Rattle.sp_defs.specs.Text.{joined_by, partition_text};
ghost use Rattle.sp_nodes.specs.Nodes.{pair};
ghost use Rattle.sp_replies.specs.Signatures.{node_text};
ghost use Rattle.sp_replies.specs.Vectors.{step_text};
ghost use Rattle.sp_replies.specs.Words.{dash_or_words};

use sp_base::put_number;
use sp_ladder::Step;
use sp_nodes::Node;
use sp_partition::Partition;
use std::alloc::{AllocError, Global};

/// What is written as one word.
pub(crate) trait Word {
    ghost text: { Self → List ℕ };

    /// Appends the word. An `Err` leaves `out` unspecified, here and below.
    fn put(&self, alloc: Global, out: &mut Vec<u8>) -> Result<(), AllocError>
        ensures { OnOk result (out.new.items ≡ out.old.items ++ text self.now) };
}

impl Word for u8 {
    ghost text = { decimal };

    fn put(&self, alloc: Global, out: &mut Vec<u8>) -> Result<(), AllocError> {
        put_number(alloc, out, i128::from(*self))
    }
}

impl Word for Partition {
    ghost text = { partition_text };

    fn put(&self, alloc: Global, out: &mut Vec<u8>) -> Result<(), AllocError> {
        self.print(alloc, out)
    }
}

/// Row and column in parentheses, with a comma between.
impl Word for Node {
    ghost text = { λ x. node_text (pair x) };

    fn put(&self, alloc: Global, out: &mut Vec<u8>) -> Result<(), AllocError> {
        out.extend_from_slice(b"(")?;
        self.row.put(alloc, out)?;
        out.extend_from_slice(b",")?;
        self.column.put(alloc, out)?;
        out.extend_from_slice(b")")
    }
}

/// The ladder, its residue and the count of its nodes, with colons between.
impl Word for Step {
    ghost text = { λ s. step_text s.ladder s.residue s.count };

    fn put(&self, alloc: Global, out: &mut Vec<u8>) -> Result<(), AllocError> {
        put_number(alloc, out, i128::from(self.ladder))?;
        out.extend_from_slice(b":")?;
        self.residue.put(alloc, out)?;
        out.extend_from_slice(b":")?;
        self.count.put(alloc, out)
    }
}

/// Appends the words with a space between each two, and a dash where there is none.
pub(crate) fn put_words<T: Word>(
    alloc: Global,
    words: &[T],
    out: &mut Vec<u8>,
) -> Result<(), AllocError>
    ensures { OnOk result (out.new.items ≡ out.old.items ++ dash_or_words (map T.text words.now)) }
{
    if words.is_empty() {
        out.extend_from_slice(b"-")
    } else {
        put_joined(alloc, b" ", words, out)
    }
}

/// Appends the words with the separator between each two.
pub(crate) fn put_joined<T: Word>(
    alloc: Global,
    separator: &[u8],
    words: &[T],
    out: &mut Vec<u8>,
) -> Result<(), AllocError>
    ensures { OnOk result
        (out.new.items ≡ out.old.items ++ joined_by separator.now (map T.text words.now)) }
{
    match words {
        [] => Ok(()),
        [first, others @ ..] => {
            first.put(alloc, out)?;
            put_later(alloc, separator, others, out)
        }
    }
}

// Each word with the separator in front.
fn put_later<T: Word>(
    alloc: Global,
    separator: &[u8],
    words: &[T],
    out: &mut Vec<u8>,
) -> Result<(), AllocError>
    ensures { OnOk result
        (out.new.items ≡ out.old.items ++ flat_map (λ word. separator.now ++ T.text word) words.now) }
{
    for word in words {
        out.extend_from_slice(separator)?;
        word.put(alloc, out)?;
    }
    Ok(())
}

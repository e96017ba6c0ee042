//! Partitions in notations other than the canonical one.
ghost use Rattle.std.specs.Prelude.{◌≡◌, ◌<◌, ◌++◌, nat_eq, count_by, take, length, OnOk, OnErr};
ghost use Rattle.sp_paint.specs.Notation.{part_text, partition_text};
ghost use Rattle.sp_paint.specs.Parts.{new_part_text};

use crate::notation::{Notation, put_exponent};
use crate::text::{put_comma, put_number};
use sp_partition::Partition;
use std::alloc::AllocError;

/// Appends a partition. An `Err` may leave more at the end of `out`, here and below.
pub(crate) fn put_partition(
    notation: Notation,
    partition: &Partition,
    out: &mut Vec<u8>,
) -> Result<(), AllocError>
    ensures text { OnOk result (out.new.items ≡ out.old.items ++ partition_text notation partition.now) }
    ensures kept { OnErr result (take (length out.old.items) out.new.items ≡ out.old.items) }
{
    let parts = partition.parts();
    if parts.is_empty() {
        return Ok(out.push(b'-')?);
    }
    for place in 0..parts.len() {
        put_new_part(notation, parts, place, out)?;
    }
    Ok(())
}

// The part at this place, unless it occurs before.
fn put_new_part(
    notation: Notation,
    parts: &[u8],
    place: usize,
    out: &mut Vec<u8>,
) -> Result<(), AllocError>
    requires { place < length parts.now }
    ensures text { OnOk result (out.new.items ≡ out.old.items ++ new_part_text notation parts.now place) }
    ensures kept { OnErr result (take (length out.old.items) out.new.items ≡ out.old.items) }
{
    let part = parts[place];
    if parts[..place].contains(&part) {
        return Ok(());
    }
    put_comma(place, out)?;
    put_part(notation, part, count(parts, part), out)
}

fn count(parts: &[u8], part: u8) -> usize
    ensures { result ≡ count_by (nat_eq part) parts.now }
{
    parts.iter().filter(|other| part == **other).count()
}

// A part that occurs so many times.
fn put_part(notation: Notation, part: u8, count: usize, out: &mut Vec<u8>) -> Result<(), AllocError>
    ensures text { OnOk result (out.new.items ≡ out.old.items ++ part_text notation part count) }
    ensures kept { OnErr result (take (length out.old.items) out.new.items ≡ out.old.items) }
{
    put_number(part, out)?;
    if count <= 1 {
        return Ok(());
    }
    put_exponent(notation, count, out)
}

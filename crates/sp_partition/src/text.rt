// The canonical text of a partition.
ghost use Rattle.std.specs.Prelude.{◌≡◌, ◌<◌, ◌≤◌, ◌++◌, length, take, drop, IfOk, OnOk, OnErr};
ghost use Rattle.std.specs.Fmt.{decimal};
ghost use Rattle.sp_partition.specs.Held.{IsHeld};
ghost use Rattle.sp_partition.specs.Runs.{lead as lead_of, lead_text};
ghost use Rattle.sp_defs.specs.Text.{partition_text};

use crate::Partition;
use itoa::Buffer;
use std::alloc::{AllocError, Global};

impl Partition {
    /// Appends the canonical text. An `Err` leaves `out` as it was.
    pub fn print(&self, _alloc: Global, out: &mut Vec<u8>) -> Result<(), AllocError>
        ensures text { OnOk result (out.new.items ≡ out.old.items ++ partition_text self.now) }
        ensures kept { OnErr result (out.new.items ≡ out.old.items) }
    {
        let length = out.len();
        let printed = put_parts(self.parts(), out);
        if printed.is_err() {
            out.truncate(length);
        }
        printed
    }
}

// An `Err` may leave more at the end of `out`, here and below.
fn put_parts(parts: &[u8], out: &mut Vec<u8>) -> Result<(), AllocError>
    requires { IsHeld parts.now }
    ensures text { OnOk result (out.new.items ≡ out.old.items ++ partition_text parts.now) }
    ensures kept { OnErr result (take (length out.old.items) out.new.items ≡ out.old.items) }
{
    if parts.is_empty() {
        out.push(b'-')?;
        return Ok(());
    }
    let mut rest = put_run(parts, out)?;
    while !rest.is_empty() {
        out.push(b',')?;
        rest = put_run(rest, out)?;
    }
    Ok(())
}

// Writes the first part with the number of its equals, and answers the parts after them.
fn put_run<'a>(parts: &'a [u8], out: &mut Vec<u8>) -> Result<&'a [u8], AllocError>
    requires some { 0 < length parts.now }
    requires few { length parts.now < 256 }
    ensures text { OnOk result (out.new.items ≡ out.old.items ++ lead_text parts.now) }
    ensures rest { IfOk result (λ rest. rest.now ≡ drop (lead_of parts.now) parts.now) }
    ensures kept { OnErr result (take (length out.old.items) out.new.items ≡ out.old.items) }
{
    let count = lead(parts);
    put_number(parts[0], out)?;
    if count > 1 {
        out.push(b'^')?;
        put_number(count as u8, out)?;
    }
    Ok(&parts[count..])
}

// How many parts at the front equal the first.
fn lead(parts: &[u8]) -> usize
    requires { 0 < length parts.now }
    ensures count { result ≡ lead_of parts.now }
    ensures within { result ≤ length parts.now }
    ensures some { 0 < result }
{
    let first = parts[0];
    parts.iter().take_while(|part| **part == first).count()
}

fn put_number(number: u8, out: &mut Vec<u8>) -> Result<(), AllocError>
    ensures text { OnOk result (out.new.items ≡ out.old.items ++ decimal number) }
    ensures kept { OnErr result (out.new.items ≡ out.old.items) }
{
    let mut buffer = Buffer::new();
    out.extend_from_slice(buffer.format(number).as_bytes())
}

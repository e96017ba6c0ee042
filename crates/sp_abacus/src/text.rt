// The abacus as a text.
ghost use Rattle.std.specs.Prelude.{◌≡◌, ◌+◌, ◌*◌, ◌≤◌, ◌++◌, length, take, OnOk, OnErr};
ghost use Rattle.sp_abacus_law.specs.Beads.{Falls};
ghost use Rattle.sp_abacus.specs.Text.{character as character_of, place_line, places as places_of};
ghost use Rattle.sp_abacus.specs.Text.{abacus_text as abacus_text_of};

use crate::beads::beta;
use sp_partition::Partition;
use std::alloc::{AllocError, Global};

/// Appends a line for each place from 0 to the greatest that has a bead, with `e` characters from runner 0 on: `o` for
/// a bead and `.` for none. For the empty partition it is a line with a dash. An `Err` leaves `out` as it was.
pub fn abacus_text(
    _alloc: Global,
    e: u8,
    p: &Partition,
    out: &mut Vec<u8>,
) -> Result<(), AllocError>
    requires e_least { 2 ≤ e }
    requires e_most { e ≤ 64 }
    ensures text { OnOk result (out.new.items ≡ out.old.items ++ abacus_text_of e p.now) }
    ensures kept { OnErr result (out.new.items ≡ out.old.items) }
{
    let length = out.len();
    let written = put_places(e, p, out);
    if written.is_err() {
        out.truncate(length);
    }
    written
}

// An `Err` may leave more at the end of `out`, here and below.
fn put_places(e: u8, p: &Partition, out: &mut Vec<u8>) -> Result<(), AllocError>
    requires e_least { 2 ≤ e }
    requires e_most { e ≤ 64 }
    ensures text { OnOk result (out.new.items ≡ out.old.items ++ abacus_text_of e p.now) }
    ensures kept { OnErr result (take (length out.old.items) out.new.items ≡ out.old.items) }
{
    if p.row_count() == 0 {
        return out.extend_from_slice(b"-\n");
    }
    let numbers = beta(e, p);
    for place in 0..places(e, numbers.as_slice()) {
        put_place(e, numbers.as_slice(), place, out)?;
    }
    Ok(())
}

// One more than the greatest place that has a bead.
fn places(e: u8, numbers: &[u8]) -> u8
    requires e_least { 2 ≤ e }
    requires falls { Falls numbers.now }
    ensures { result ≡ places_of e numbers.now }
{
    match numbers.first() {
        Some(greatest) => *greatest / e + 1,
        None => 0,
    }
}

fn put_place(e: u8, numbers: &[u8], place: u8, out: &mut Vec<u8>) -> Result<(), AllocError>
    requires small { e * place + e ≤ 255 }
    ensures text { OnOk result (out.new.items ≡ out.old.items ++ place_line e numbers.now place) }
    ensures kept { OnErr result (take (length out.old.items) out.new.items ≡ out.old.items) }
{
    for runner in 0..e {
        out.push(character(numbers, e * place + runner))?;
    }
    out.push(b'\n')?;
    Ok(())
}

fn character(numbers: &[u8], number: u8) -> u8
    ensures { result ≡ character_of numbers.now number }
{
    if numbers.contains(&number) {
        b'o'
    } else {
        b'.'
    }
}

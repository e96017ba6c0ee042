// The canonical text of a vector.
ghost use Rattle.std.specs.Prelude.{◌≡◌, ◌++◌, ◌↔◌, take, length, cond, flat_map, true, IsTrue, OnOk, OnErr};
ghost use Rattle.sp_defs.specs.Text.{entry_text, factor_text, next_entry_text, vector_text, written};
ghost use Rattle.sp_defs.specs.Text.{has_minus as has_minus_of};

use crate::{Terms, Vector};
use sp_laurent::{Laurent, print_term};
use sp_partition::Partition;
use std::alloc::{AllocError, Global};

impl Vector {
    /// Appends the canonical text. An `Err` leaves `out` as it was.
    pub fn print(&self, alloc: Global, out: &mut Vec<u8>) -> Result<(), AllocError>
        ensures text { OnOk result (out.new.items ≡ out.old.items ++ vector_text self.now.entries) }
        ensures kept { OnErr result (out.new.items ≡ out.old.items) }
    {
        let length = out.len();
        let printed = put_terms(alloc, self.terms(), out);
        if printed.is_err() {
            out.truncate(length);
        }
        printed
    }
}

// An `Err` may leave more at the end of `out`, here and below.
fn put_terms(alloc: Global, terms: Terms<'_>, out: &mut Vec<u8>) -> Result<(), AllocError>
    ensures text { OnOk result (out.new.items ≡ out.old.items ++ written terms.entry) }
    ensures kept { OnErr result (take (length out.old.items) out.new.items ≡ out.old.items) }
{
    let mut rest = terms;
    match rest.next() {
        Some((at, coefficient)) => {
            put_signed_entry(
                alloc,
                b"-".as_slice(),
                b"".as_slice(),
                &at,
                coefficient,
                out,
            )?;
            put_rest(alloc, rest, out)
        }
        None => {
            out.push(b'0')?;
            Ok(())
        }
    }
}

// The terms after the first, each with its sign between.
fn put_rest(alloc: Global, terms: Terms<'_>, out: &mut Vec<u8>) -> Result<(), AllocError>
    ensures text { OnOk result (out.new.items ≡ out.old.items ++ flat_map next_entry_text terms.entry) }
    ensures kept { OnErr result (take (length out.old.items) out.new.items ≡ out.old.items) }
{
    for (at, coefficient) in terms {
        put_signed_entry(
            alloc,
            b" - ".as_slice(),
            b" + ".as_slice(),
            &at,
            coefficient,
            out,
        )?;
    }
    Ok(())
}

// An entry behind its sign: `minus` where it is a single negative term, and `plus` elsewhere.
fn put_signed_entry(
    alloc: Global,
    minus: &[u8],
    plus: &[u8],
    at: &Partition,
    coefficient: &Laurent,
    out: &mut Vec<u8>,
) -> Result<(), AllocError>
    ensures text { OnOk result (out.new.items ≡ out.old.items
        ++ (cond (has_minus_of coefficient.now) minus.now plus.now ++ entry_text (at.now, coefficient.now))) }
    ensures kept { OnErr result (take (length out.old.items) out.new.items ≡ out.old.items) }
{
    let sign = if has_minus(coefficient) { minus } else { plus };
    out.extend_from_slice(sign)?;
    put_entry(alloc, at, coefficient, out)
}

fn put_entry(
    alloc: Global,
    at: &Partition,
    coefficient: &Laurent,
    out: &mut Vec<u8>,
) -> Result<(), AllocError>
    ensures text { OnOk result (out.new.items ≡ out.old.items ++ entry_text (at.now, coefficient.now)) }
    ensures kept { OnErr result (take (length out.old.items) out.new.items ≡ out.old.items) }
{
    put_factor(alloc, coefficient, out)?;
    out.push(b'[')?;
    at.print(alloc, out)?;
    out.push(b']')?;
    Ok(())
}

// A single term is written without its sign, and not at all where it is 1 or -1.
fn put_factor(alloc: Global, coefficient: &Laurent, out: &mut Vec<u8>) -> Result<(), AllocError>
    ensures text { OnOk result (out.new.items ≡ out.old.items ++ factor_text coefficient.now) }
    ensures kept { OnErr result (take (length out.old.items) out.new.items ≡ out.old.items) }
{
    match coefficient.terms() {
        [] | [(0, 1 | -1)] => Ok(()),
        [term] => print_term(*term, out),
        _ => {
            out.push(b'(')?;
            coefficient.print(alloc, out)?;
            out.push(b')')?;
            Ok(())
        }
    }
}

fn has_minus(coefficient: &Laurent) -> bool
    ensures { IsTrue result ↔ (has_minus_of coefficient.now ≡ true) }
{
    match coefficient.terms() {
        [(_, constant)] => *constant < 0,
        _ => false,
    }
}

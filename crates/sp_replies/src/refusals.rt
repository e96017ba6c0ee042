// Why a command that was read is refused.
ghost use Rattle.std.specs.Prelude.{◌≡◌, ◌++◌, OnOk, codes};
ghost use Rattle.std.specs.Fmt.{decimal};
ghost use Rattle.sp_defs.specs.Text.{partition_text};
ghost use Rattle.sp_replies.specs.Refusals.{by_column, by_combining, by_row, refusal_line};
ghost use Rattle.sp_replies.specs.Words.{line_of};

use sp_abacus::CombineFault;
use sp_base::put_number;
use sp_llt::{FirstRefused, Refused};
use sp_partition::Partition;
use std::alloc::{AllocError, Global};

/// Why a command that was read is refused.
#[derive(Clone, Copy, Debug)]
pub enum Refusal {
    /// A number passes the limit.
    TooLarge,
    /// A number of this column passes the limit.
    LargeColumn { column: Partition },
    /// A coefficient of the row isn't in vZ[v].
    Stray { at: Partition },
    /// A coefficient of this column isn't in vZ[v].
    StrayColumn { column: Partition, at: Partition },
    /// The path of the negated residues stops.
    NoPath,
    /// No painter has the name.
    UnknownPainter,
    /// The partition isn't a core.
    NotCore,
    /// The quotients aren't as many as e.
    WrongCount,
    /// The partition would have too many nodes.
    PastDegree,
    /// This line of a certificate, counted from 1, is not one of those that are allowed in its place.
    Malformed { line: u64 },
    /// This column of a certificate is not the row, or these are not its shares.
    WrongColumn { column: Partition },
    /// There are more fillings than are listed.
    TooMany,
}

impl From<Refused> for Refusal {
    ghost from_gives = { λ why refusal. refusal ≡ by_row why };

    fn from(why: Refused) -> Refusal {
        match why {
            Refused::TooLarge => Refusal::TooLarge,
            Refused::Stray { at } => Refusal::Stray { at },
        }
    }
}

impl From<FirstRefused> for Refusal {
    ghost from_gives = { λ refused refusal. refusal ≡ by_column refused.mu refused.why };

    fn from(refused: FirstRefused) -> Refusal {
        at_column(&refused.mu, &refused.why)
    }
}

// Why the row of a column is refused.
fn at_column(column: &Partition, why: &Refused) -> Refusal
    ensures { result ≡ by_column column.now why.now }
{
    match why {
        Refused::TooLarge => Refusal::LargeColumn { column: *column },
        Refused::Stray { at } => Refusal::StrayColumn {
            column: *column,
            at: *at,
        },
    }
}

impl From<CombineFault> for Refusal {
    ghost from_gives = { λ fault refusal. refusal ≡ by_combining fault };

    fn from(fault: CombineFault) -> Refusal {
        match fault {
            CombineFault::NotCore => Refusal::NotCore,
            CombineFault::WrongCount => Refusal::WrongCount,
            CombineFault::PastDegree => Refusal::PastDegree,
        }
    }
}

/// Appends the line that says why a command is refused.
///
/// # Errors
///
/// Want of memory leaves `out` unspecified.
pub fn put_refusal(alloc: Global, why: &Refusal, out: &mut Vec<u8>) -> Result<(), AllocError>
    ensures { OnOk result (out.new.items ≡ out.old.items ++ refusal_line why.now) }
{
    match why {
        Refusal::TooLarge => out.extend_from_slice(b"error 9 too large\n"),
        Refusal::LargeColumn { column } => {
            put_named(alloc, b"error 9 too large at column ", column, out)
        }
        Refusal::Stray { at } => put_named(alloc, b"error 10 stray coefficient at ", at, out),
        Refusal::StrayColumn { column, at } => put_stray_column(alloc, column, at, out),
        Refusal::NoPath => out.extend_from_slice(b"error 11 no path\n"),
        Refusal::UnknownPainter => out.extend_from_slice(b"error 14 unknown painter\n"),
        Refusal::NotCore => out.extend_from_slice(b"error 18 not a core\n"),
        Refusal::WrongCount => out.extend_from_slice(b"error 18 not e quotients\n"),
        Refusal::PastDegree => out.extend_from_slice(b"error 18 degree past 30\n"),
        Refusal::Malformed { line } => {
            put_numbered(
                alloc,
                b"error 15 certificate malformed at line ",
                *line,
                out,
            )
        }
        Refusal::WrongColumn { column } => {
            put_named(alloc, b"error 16 certificate wrong at column ", column, out)
        }
        Refusal::TooMany => out.extend_from_slice(b"error 20 too many fillings\n"),
    }
}

fn put_stray_column(
    alloc: Global,
    column: &Partition,
    at: &Partition,
    out: &mut Vec<u8>,
) -> Result<(), AllocError>
    ensures { OnOk result (out.new.items ≡ out.old.items
        ++ line_of (codes "error 10 stray coefficient at " ++ partition_text at.now
        ++ codes " in column " ++ partition_text column.now)) }
{
    out.extend_from_slice(b"error 10 stray coefficient at ")?;
    at.print(alloc, out)?;
    put_named(alloc, b" in column ", column, out)
}

/// Appends a line of a text and a partition.
///
/// # Errors
///
/// Want of memory leaves `out` unspecified.
pub fn put_named(
    alloc: Global,
    text: &[u8],
    p: &Partition,
    out: &mut Vec<u8>,
) -> Result<(), AllocError>
    ensures { OnOk result (out.new.items ≡ out.old.items ++ line_of (text.now ++ partition_text p.now)) }
{
    out.extend_from_slice(text)?;
    p.print(alloc, out)?;
    out.extend_from_slice(b"\n")
}

// Appends a line of a text and a number.
fn put_numbered(
    alloc: Global,
    text: &[u8],
    number: u64,
    out: &mut Vec<u8>,
) -> Result<(), AllocError>
    ensures { OnOk result (out.new.items ≡ out.old.items ++ line_of (text.now ++ decimal number)) }
{
    out.extend_from_slice(text)?;
    put_number(alloc, out, i128::from(number))?;
    out.extend_from_slice(b"\n")
}

// The test of a certificate, column by column.
ghost use Rattle.std.specs.Prelude.{◌≡◌, ◌+◌, ◌<◌, ◌≤◌, ◌^◌, ◌++◌, ◌∷◌, [], length, map, drop, IfOk, OnOk, IfErr};
ghost use Rattle.std.specs.List.{AllByRecursion};
ghost use Rattle.sp_defs.specs.Partition.{IsRegularOf};
ghost use Rattle.sp_llt.specs.Adopting.{Rising};
ghost use Rattle.sp_llt.specs.Place.{key_of, label, labels};
ghost use Rattle.sp_llt.specs.Shares.{rank_of};
ghost use Rattle.sp_cert.specs.Checked.{IsChecked, IsStart, ranks_in, entry_for};
ghost use Rattle.sp_cert.specs.Verdict.{IsAccepted, IsRowColumn, IsCause};

use crate::{CertFault, Certificate};
use sp_core::Piece;
use sp_llt::{AdoptFault, Ctx, Entry};
use sp_partition::{Partition, rank};
use std::alloc::Global;

/// The entries of all columns, in the certificate's order: each column is the row of its partition, whoever wrote it.
///
/// The first column that fails decides. It is too large where a coefficient of a partial ladder vector of its partition
/// passes the limit or, at some partition, the size of the ladder vector's coefficient and the products of the sizes of
/// the shares and of what is listed for their columns sum up to more. Otherwise it is wrong where the ladder vector
/// isn't the sum of its entries and of its shares times the listed columns, its entry at its own partition isn't 1,
/// another entry isn't in vZ[v], or a share isn't bar-invariant. It never answers `Malformed`.
pub fn check(alloc: Global, certificate: &Certificate, limit: u128) -> Result<Vec<Entry>, CertFault>
    requires least { 1 ≤ limit }
    requires most { limit < 2 ^ 127 }
    ensures entries { IfOk result (λ entries. entries.items ≡
        map (entry_for (key_of certificate.now.e certificate.now.degree limit)) certificate.now.columns) }
    // each column is the row of its partition, with its shares
    ensures rows { OnOk result (AllByRecursion
        (IsRowColumn (key_of certificate.now.e certificate.now.degree limit)) certificate.now.columns) }
    ensures accepted { OnOk result (AllByRecursion
        (IsAccepted (key_of certificate.now.e certificate.now.degree limit) certificate.now.columns)
        certificate.now.columns) }
    // the first column that fails, as too large before wrong
    ensures refused { IfErr result
        (IsCause (key_of certificate.now.e certificate.now.degree limit) certificate.now.columns) }
{
    let ctx = Ctx::open_for_all(alloc, certificate.e(), certificate.degree(), limit)?;
    check_in(alloc, &ctx, certificate)
}

// The entries of all columns, in a context of their own.
fn check_in(alloc: Global, ctx: &Ctx, certificate: &Certificate) -> Result<Vec<Entry>, CertFault>
    requires { ctx.now ≡ key_of certificate.now.e certificate.now.degree ctx.now.limit }
    ensures entries { IfOk result (λ entries.
        entries.items ≡ map (entry_for ctx.now) certificate.now.columns) }
    ensures rows { OnOk result (AllByRecursion (IsRowColumn ctx.now) certificate.now.columns) }
    ensures accepted { OnOk result
        (AllByRecursion (IsAccepted ctx.now certificate.now.columns) certificate.now.columns) }
    ensures refused { IfErr result (IsCause ctx.now certificate.now.columns) }
{
    let count = certificate.columns().len();
    let mut entries = Vec::with_capacity(alloc, count)?;
    let mut start = 0;
    for place in 0..count {
        let (entry, next) = match entry_at(alloc, ctx, certificate, place, &entries, start) {
            Ok(found) => found,
            Err(fault) => return Err(fault),
        };
        if entries.push(entry).is_err() {
            return Err(CertFault::Memory);
        }
        start = next;
    }
    Ok(entries)
}

// The entry of the column at a place, from those of all columns before it, and where the last entries with rising ranks
// begin.
fn entry_at(
    alloc: Global,
    ctx: &Ctx,
    certificate: &Certificate,
    place: usize,
    entries: &[Entry],
    start: usize,
) -> Result<(Entry, usize), CertFault>
    requires place { place < length certificate.now.columns }
    requires checked { IsChecked ctx.now certificate.now place entries.now start }
    ensures checked { IfOk result (λ found.
        IsChecked ctx.now certificate.now (place + 1) (entries.now ++ (found.0 ∷ [])) found.1) }
    ensures refused { IfErr result (IsCause ctx.now certificate.now.columns) }
{
    let column = &certificate.columns()[place];
    let k = rank_in(ctx, &column.mu);
    let next = start_below(entries, start, k);
    let shares = column.shares.as_slice();
    match Entry::adopt(alloc, ctx, k, shares, &column.entries, &entries[next..]) {
        Ok(entry) => Ok((entry, next)),
        Err(AdoptFault::TooLarge) => Err(CertFault::TooLarge { column: column.mu }),
        Err(AdoptFault::Wrong) => Err(CertFault::Wrong { column: column.mu }),
        Err(AdoptFault::Memory) => Err(CertFault::Memory),
    }
}

// The rank of an e-regular partition.
fn rank_in(ctx: &Ctx, mu: &Partition) -> usize
    requires { IsRegularOf ctx.now.e ctx.now.degree mu.now }
    ensures within { result < length (labels ctx.now) }
    ensures rank { result ≡ rank_of ctx.now.e mu.now }
    ensures at { label ctx.now result ≡ mu.now }
{
    match rank(ctx.regulars(), mu) {
        Some(k) => k,
        None => unreachable!(),
    }
}

// Where the last entries begin whose ranks rise to one below k.
fn start_below(entries: &[Entry], start: usize, k: usize) -> usize
    requires start { start ≤ length entries.now }
    requires rising { Rising (ranks_in (drop start entries.now)) }
    ensures { IsStart entries.now k start result }
{
    match entries.last() {
        Some(last) => {
            if last.number() < k {
                start
            } else {
                entries.len()
            }
        }
        None => start,
    }
}

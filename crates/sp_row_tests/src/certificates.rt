ghost use Rattle.std.specs.Prelude.{◌≡◌, IfOk};
ghost use Rattle.std.specs.List.{AllByRecursion};
ghost use Rattle.sp_defs.specs.Within.{PowersWithin};
ghost use Rattle.sp_llt.specs.Adopting.{listed_powers};
ghost use Rattle.sp_llt.specs.Filled.{IsFilled};

use sp_cert::{CertFault, Certificate, Column, check, write};
use sp_fock::Vector;
use sp_llt::{Ctx, Entry, RowsFault, entry_alone};
use sp_partition::{Items, Partition};
use std::alloc::Global;
use std::sync::Arc;
use std::test::Fail;

/// A certificate of degree 1 at e = 2, which has one column and no shares.
fn of_degree_one(alloc: Global, entries: Vector) -> Result<Certificate, Fail>
    requires degree { entries.degree ≡ 1 }
    requires powers { AllByRecursion (λ t. PowersWithin listed_powers t.1) entries.entries }
{
    let mu = Partition::from_parts(&[1])?;
    let shares = Items::of(Vec::new(alloc));
    let columns = vec![in alloc;
        Column {
            mu,
            shares,
            entries
        },
    ]?;
    Ok(Certificate::of(1, 2, 1, columns))
}

/// What a certificate is answered by.
fn verdict(alloc: Global, certificate: &Certificate) -> Result<Vec<u8>, Fail> {
    let mut out = Vec::new(alloc);
    let answer = check(alloc, certificate, 1);
    match &answer {
        Ok(entries) => {
            for entry in entries {
                out.extend_from_slice(b"row ")?;
                entry.mu().print(alloc, &mut out)?;
            }
        }
        Err(CertFault::Wrong { column }) => {
            out.extend_from_slice(b"wrong at ")?;
            column.print(alloc, &mut out)?;
        }
        Err(CertFault::TooLarge { column }) => {
            out.extend_from_slice(b"too large at ")?;
            column.print(alloc, &mut out)?;
        }
        Err(CertFault::Malformed { .. }) => out.extend_from_slice(b"malformed")?,
        Err(CertFault::Memory) => out.extend_from_slice(b"memory")?,
    }
    Ok(out)
}

/// The row of (1).
fn row_of_one(alloc: Global) -> Result<Vector, Fail>
    ensures degree { IfOk result (λ v. v.degree ≡ 1) }
    ensures powers { IfOk result (λ v. AllByRecursion (λ t. PowersWithin listed_powers t.1) v.entries) }
{
    let mu = Partition::from_parts(&[1])?;
    Ok(Vector::one(alloc, &mu)?)
}

/// The vector 0 of degree 1.
fn none_of_one(alloc: Global) -> Vector
    ensures degree { result.degree ≡ 1 }
    ensures powers { AllByRecursion (λ t. PowersWithin listed_powers t.1) result.entries }
{
    Vector::zero(alloc, 1)
}

#[test]
fn a_row_and_none(rt: HostRuntime) -> Result<(), Fail> {
    let alloc = rt.alloc();
    let right = of_degree_one(alloc, row_of_one(alloc)?)?;
    assert_eq!(rt; verdict(alloc, &right)?.as_slice(), b"row 1".as_slice());
    let wrong = of_degree_one(alloc, none_of_one(alloc))?;
    assert_eq!(rt;
        verdict(alloc, &wrong)?.as_slice(),
        b"wrong at 1".as_slice()
    );
    Ok(())
}

/// The entries of all ranks.
fn rows_of(alloc: Global, ctx: &Ctx) -> Result<Vec<Arc<Entry>>, Fail>
    ensures { IfOk result (λ rows. IsFilled ctx.now rows.items) }
{
    let mut rows = Vec::new(alloc);
    for k in 0..ctx.regulars().len() {
        let entry = entry_alone(alloc, ctx, k)?;
        rows.push(Arc::new(alloc, entry)?)?;
    }
    Ok(rows)
}

#[test]
fn the_certificate_of_degree_five(rt: HostRuntime) -> Result<(), Fail> {
    let alloc = rt.alloc();
    let ctx = Ctx::open(alloc, 2, 5, 1_000_000)?;
    let rows = rows_of(alloc, &ctx)?;
    let mut out = Vec::new(alloc);
    let written = write(alloc, &ctx, &rows, &mut out);
    assert!(rt; written.is_ok());
    let text = b"certificate 2\ne 2\ndegree 5\nblock 3 2\ncolumn 3,2\nentry 3,2 1\nentry 3,1^2 v\n\
        entry 2^2,1 v^2\ncolumn 5\nshare 3,2 1\nentry 5 1\nentry 3,1^2 v\nentry 1^5 v^2\nblock 2 3\n\
        column 4,1\nentry 4,1 1\nentry 2,1^3 v\nend\n";
    assert_eq!(rt; out.as_slice(), text.as_slice());
    Ok(())
}

#[test]
fn a_refused_row_is_named(rt: HostRuntime) -> Result<(), Fail> {
    let alloc = rt.alloc();
    let ctx = Ctx::open(alloc, 2, 5, 2)?;
    let rows = rows_of(alloc, &ctx)?;
    let mut out = Vec::new(alloc);
    let written = write(alloc, &ctx, &rows, &mut out);
    if let Err(RowsFault::Refused(refused)) = &written {
        refused.mu.print(alloc, &mut out)?;
    }
    assert_eq!(rt; out.as_slice(), b"5".as_slice());
    Ok(())
}

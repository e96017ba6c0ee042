// The partition and the polynomial of a line.
ghost use Rattle.std.specs.Prelude.{◌≡◌, ◌≢◌, ◌≤◌, [], IfOk, IfSome};
ghost use Rattle.sp_defs.specs.Partition.{IsPartitionOf};
ghost use Rattle.sp_laurent.specs.Readable.{IsReadable};
ghost use Rattle.sp_partition.specs.declared.TheConstants.{CAPACITY};
ghost use Rattle.sp_cert.specs.Grammar.{partition_with as partition_of, polynomial_with as polynomial_of};
ghost use Rattle.sp_cert.specs.Grammar.{term_of as term};

use sp_laurent::{Laurent, ParseFault};
use sp_partition::Partition;
use std::alloc::{AllocError, Global};

/// The partition of n and the polynomial there that two words write, if the words are their texts and it isn't 0.
pub(crate) fn term_of(
    alloc: Global,
    n: u8,
    partition: &[u8],
    polynomial: &[u8],
) -> Result<Option<(Partition, Laurent)>, AllocError>
    requires { n ≤ CAPACITY }
    ensures value { IfOk result (λ found. found ≡ term n partition.now polynomial.now) }
    ensures partition { IfOk result (λ found. IfSome found (λ t. IsPartitionOf n t.0)) }
    ensures factor { IfOk result (λ found. IfSome found (λ t. IsReadable t.1 × (t.1 ≢ []))) }
{
    let Some(lambda) = partition_with(alloc, n, partition)? else {
        return Ok(None);
    };
    match polynomial_with(alloc, polynomial)? {
        Some(p) => Ok(Some((lambda, p))),
        None => Ok(None),
    }
}

// The partition of n that has this text.
fn partition_with(alloc: Global, n: u8, text: &[u8]) -> Result<Option<Partition>, AllocError>
    requires { n ≤ CAPACITY }
    ensures value { IfOk result (λ found. found ≡ partition_of n text.now) }
    ensures partition { IfOk result (λ found. IfSome found (IsPartitionOf n)) }
{
    let Ok(p) = Partition::parse(text) else {
        return Ok(None);
    };
    if p.degree() != n {
        return Ok(None);
    }
    let mut printed = Vec::new(alloc);
    p.print(alloc, &mut printed)?;
    if printed.as_slice() == text {
        Ok(Some(p))
    } else {
        Ok(None)
    }
}

// The polynomial that has this text, if it isn't 0.
fn polynomial_with(alloc: Global, text: &[u8]) -> Result<Option<Laurent>, AllocError>
    ensures value { IfOk result (λ found. found ≡ polynomial_of text.now) }
    ensures factor { IfOk result (λ found. IfSome found (λ p. IsReadable p × (p ≢ []))) }
{
    match Laurent::parse(alloc, text) {
        Ok(p) => {
            if p.terms().is_empty() {
                Ok(None)
            } else {
                Ok(Some(p))
            }
        }
        Err(ParseFault::NotLaurent) => Ok(None),
        Err(ParseFault::Memory) => Err(AllocError),
    }
}

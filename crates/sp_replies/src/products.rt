// Answers on products of Schur functions.
ghost use Rattle.std.specs.Prelude.{◌≡◌, ◌++◌, ◌+◌, ◌≤◌, [], cond, IfOk, OnOk, filter, flat_map, reverse};
ghost use Rattle.sp_defs.specs.Partition.{degree as degree_of};
ghost use Rattle.sp_fock.specs.Held.{IsHeld, held_as};
ghost use Rattle.sp_fock_law.specs.Tally.{constants};
ghost use Rattle.sp_lr.specs.Results.{chains_in};
ghost use Rattle.sp_lr_defs.specs.Listing.{ends_with as has_end};
ghost use Rattle.sp_replies.specs.Products.{chain_line, chain_lines, fillings_text, product_text};

use crate::refusals::{Refusal, put_refusal};
use crate::vectors::put_vector;
use crate::words::put_joined;
use sp_fock::Vector;
use sp_laurent::Laurent;
use sp_lr::{Filling, LrFault, fillings, product};
use sp_partition::{DEGREE_LIMIT, Partition};
use std::alloc::{AllocError, Global};

/// The most fillings, of all partitions together, that a product counts or a list has.
pub const MOST_FILLINGS: usize = 100_000;

/// The product of two Schur functions, as the vector whose coefficients are the numbers of fillings, or that there are
/// too many. The degrees together are at most `DEGREE_LIMIT`. An `Err` leaves `out` unspecified, here and below.
pub fn put_product(
    alloc: Global,
    lambda: &Partition,
    mu: &Partition,
    out: &mut Vec<u8>,
) -> Result<(), AllocError>
    requires { degree_of lambda.now + degree_of mu.now ≤ DEGREE_LIMIT }
    ensures { OnOk result (out.new.items ≡ out.old.items ++ product_text lambda.now mu.now) }
{
    match product(alloc, lambda, mu, MOST_FILLINGS) {
        Ok(counts) => {
            let vector = vector_of(alloc, lambda.degree() + mu.degree(), counts)?;
            put_vector(alloc, &vector, out)
        }
        Err(LrFault::TooMany) => put_refusal(alloc, &Refusal::TooMany, out),
        Err(LrFault::Memory) => Err(AllocError),
    }
}

// The vector with these numbers as coefficients, by descending partitions of the degree.
fn vector_of(
    alloc: Global,
    degree: u8,
    mut counts: Vec<(Partition, u64)>,
) -> Result<Vector, AllocError>
    requires { IsHeld (held_as degree (constants (reverse counts.items))) }
    ensures { IfOk result (λ v. v ≡ held_as degree (constants (reverse counts.items))) }
{
    counts.reverse();
    let mut pairs = Vec::new(alloc);
    for count in &counts {
        pairs.push((count.0, Laurent::monomial(alloc, i128::from(count.1), 0)?))?;
    }
    Ok(Vector::from_pairs(degree, pairs))
}

/// The chains of the fillings of `nu` over `lambda` with content `mu`, descending, one per line, and a dash where there
/// is none; or that `lambda` and `mu` have too many. Their degrees together are at most `DEGREE_LIMIT`.
pub fn put_fillings(
    alloc: Global,
    lambda: &Partition,
    mu: &Partition,
    nu: &Partition,
    out: &mut Vec<u8>,
) -> Result<(), AllocError>
    requires { degree_of lambda.now + degree_of mu.now ≤ DEGREE_LIMIT }
    ensures { OnOk result (out.new.items ≡ out.old.items ++ fillings_text lambda.now mu.now nu.now) }
{
    match fillings(alloc, lambda, mu, MOST_FILLINGS) {
        Ok(found) => put_chains(alloc, nu, &found, out),
        Err(LrFault::TooMany) => put_refusal(alloc, &Refusal::TooMany, out),
        Err(LrFault::Memory) => Err(AllocError),
    }
}

// The chains that end with a partition, or a dash.
fn put_chains(
    alloc: Global,
    nu: &Partition,
    found: &[Filling],
    out: &mut Vec<u8>,
) -> Result<(), AllocError>
    ensures { OnOk result (out.new.items ≡
        out.old.items ++ chain_lines (filter (has_end nu.now) (chains_in found.now))) }
{
    let start = out.len();
    put_ending(alloc, nu, found, out)?;
    if out.len() == start {
        out.extend_from_slice(b"-\n")
    } else {
        Ok(())
    }
}

// The chains that end with a partition.
fn put_ending(
    alloc: Global,
    nu: &Partition,
    found: &[Filling],
    out: &mut Vec<u8>,
) -> Result<(), AllocError>
    ensures { OnOk result (out.new.items ≡
        out.old.items ++ flat_map chain_line (filter (has_end nu.now) (chains_in found.now))) }
{
    for filling in found {
        put_chain_to(alloc, nu, filling.chain.as_slice(), out)?;
    }
    Ok(())
}

// A chain, if it ends with this partition.
fn put_chain_to(
    alloc: Global,
    nu: &Partition,
    chain: &[Partition],
    out: &mut Vec<u8>,
) -> Result<(), AllocError>
    ensures { OnOk result (out.new.items ≡
        out.old.items ++ cond (has_end nu.now chain.now) (chain_line chain.now) []) }
{
    if ends_with(chain, nu) {
        put_joined(alloc, b" < ", chain, out)?;
        out.extend_from_slice(b"\n")?;
    }
    Ok(())
}

// Whether this partition is the last of a chain.
fn ends_with(chain: &[Partition], nu: &Partition) -> bool
    ensures { result ≡ has_end nu.now chain.now }
{
    match chain.last() {
        Some(last) => *last == *nu,
        None => false,
    }
}

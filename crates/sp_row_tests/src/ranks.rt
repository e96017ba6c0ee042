//! Ladder vectors over ranks beside worked ones.
ghost use Rattle.std.specs.Prelude.{◌≤◌, ◌<◌, ◌^◌};

use sp_laurent::Term;
use sp_partition::{DEGREE_LIMIT, Partition, all_of, rank};
use sp_power::PowerFault;
use sp_ranks::{Moves, ladder_vector};
use std::alloc::{AllocError, Global};
use std::test::Fail;

/// The terms of a ladder vector, each with the rank of its partition, or what refused it. None where the partition is
/// not regular.
fn ranked_terms(
    alloc: Global,
    e: u8,
    parts: &[u8],
    limit: u128,
) -> Result<Vec<(u16, i32, i128)>, PowerFault>
    requires e_least { 2 ≤ e }
    requires e_most { e ≤ 64 }
    requires least { 1 ≤ limit }
    requires most { limit < 2 ^ 127 }
{
    let mut terms = Vec::new(alloc);
    let mu = Partition::from_parts(parts).unwrap_or(Partition::empty());
    if !mu.is_regular(e) || mu.degree() > DEGREE_LIMIT {
        return Ok(terms);
    }
    let moves = Moves::open(alloc, e, mu.degree())?;
    let vector = ladder_vector(alloc, &moves, e, &mu, limit)?;
    for place in 0..vector.count() {
        push_terms(&mut terms, vector.rank(place), vector.terms(place))?;
    }
    Ok(terms)
}

fn push_terms(
    terms: &mut Vec<(u16, i32, i128)>,
    rank: u16,
    polynomial: &[Term],
) -> Result<(), AllocError> {
    for (power, coefficient) in polynomial {
        terms.push((rank, *power, *coefficient))?;
    }
    Ok(())
}

#[test]
fn ladder_vectors_and_limits(rt: HostRuntime) -> Result<(), Fail> {
    let alloc = rt.alloc();
    // [5] + [3,2] + 2v[3,1^2] + v^2[2^2,1] + v^2[1^5]; of 5: [1^5], [2,1^3], [2^2,1], [3,1^2], [3,2], [4,1], [5]
    let wanted = [(0, 2, 1), (2, 2, 1), (3, 1, 2), (4, 0, 1), (6, 0, 1)];
    assert_eq!(rt;
        ranked_terms(alloc, 2, &[5], 2)?.as_slice(),
        wanted.as_slice()
    );
    assert!(rt; matches!(ranked_terms(alloc, 2, &[5], 1), Err(PowerFault::TooLarge)));
    Ok(())
}

/// The rank that the partition of these parts, one of n, grows to in this row. None where it doesn't grow there.
fn grown_rank(
    alloc: Global,
    moves: &Moves,
    n: u8,
    parts: &[u8],
    row: u8,
) -> Result<Option<u16>, AllocError>
    requires small { n < DEGREE_LIMIT }
    requires degree { n < moves.now.degree }
{
    let all = all_of(alloc, n)?;
    let p = Partition::from_parts(parts).unwrap_or(Partition::empty());
    match rank(&all, &p) {
        Some(place) if p.can_grow(row) => Ok(Some(moves.grown(n, place as u16, row))),
        _ => Ok(None),
    }
}

#[test]
fn ranks_of_grown_partitions(rt: HostRuntime) -> Result<(), Fail> {
    // of 3: [1^3], [2,1], [3]; of 4: [1^4], [2,1^2], [2^2], [3,1], [4]
    let alloc = rt.alloc();
    let moves = Moves::open(alloc, 2, 4)?;
    assert_eq!(rt; grown_rank(alloc, &moves, 3, &[2, 1], 1)?, Some(3));
    assert_eq!(rt; grown_rank(alloc, &moves, 3, &[2, 1], 2)?, Some(2));
    assert_eq!(rt; grown_rank(alloc, &moves, 3, &[2, 1], 3)?, Some(1));
    assert_eq!(rt; grown_rank(alloc, &moves, 3, &[3], 1)?, Some(4));
    assert_eq!(rt; grown_rank(alloc, &moves, 0, &[], 1)?, Some(0));
    Ok(())
}

#[test]
fn first_and_last_ranks_and_rows_that_do_not_grow(rt: HostRuntime) -> Result<(), Fail> {
    // There are 77 partitions of 12.
    let alloc = rt.alloc();
    let moves = Moves::open(alloc, 2, 12)?;
    assert_eq!(rt; grown_rank(alloc, &moves, 11, &[11], 1)?, Some(76));
    assert_eq!(rt; grown_rank(alloc, &moves, 11, &[1; 11], 12)?, Some(0));
    assert_eq!(rt; grown_rank(alloc, &moves, 11, &[1; 11], 11)?, None);
    assert_eq!(rt; grown_rank(alloc, &moves, 4, &[2, 2], 2)?, None);
    assert_eq!(rt; grown_rank(alloc, &moves, 4, &[2, 2], 4)?, None);
    Ok(())
}

/// How many addable and removable nodes of residue `i` the partition of these parts, one of n, has.
fn mark_count(alloc: Global, moves: &Moves, n: u8, parts: &[u8], i: u8) -> Result<usize, AllocError>
    requires small { n ≤ DEGREE_LIMIT }
    requires degree { n ≤ moves.now.degree }
{
    let all = all_of(alloc, n)?;
    let p = Partition::from_parts(parts).unwrap_or(Partition::empty());
    match rank(&all, &p) {
        Some(place) => Ok(moves.marks(n, place as u16, i).len()),
        None => Ok(0),
    }
}

#[test]
fn signatures_of_two_rows(rt: HostRuntime) -> Result<(), Fail> {
    // [3,1] at e = 2: of residue 0 the removable (1,3), and the addable (2,2) and (3,1); of residue 1 the addable (1,4)
    // and the removable (2,1).
    let alloc = rt.alloc();
    let moves = Moves::open(alloc, 2, 4)?;
    assert_eq!(rt; mark_count(alloc, &moves, 4, &[3, 1], 0)?, 3);
    assert_eq!(rt; mark_count(alloc, &moves, 4, &[3, 1], 1)?, 2);
    assert_eq!(rt; mark_count(alloc, &moves, 0, &[], 0)?, 1);
    assert_eq!(rt; mark_count(alloc, &moves, 0, &[], 1)?, 0);
    Ok(())
}

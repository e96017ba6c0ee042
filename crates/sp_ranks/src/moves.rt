// To which partitions of the next degree each partition grows, by ranks, and the signatures of each.
ghost use Rattle.std.specs.Prelude.{◌≡◌, ℕ, ◌+◌, ◌-◌, ◌<◌, ◌≤◌, true, map, length, IfOk};
ghost use Rattle.sp_defs.specs.Node.{is_addable};
ghost use Rattle.sp_defs.specs.Partition.{degree as degree_of, part as part_of, partitions};
ghost use Rattle.sp_defs.specs.Signature.{grow, signature};
ghost use Rattle.sp_nodes.specs.Marks.{mark_of};
ghost use Rattle.sp_ranks.specs.Ranks.{partition_at};
ghost use Rattle.sp_ranks.specs.Moves.{AreCornerRows, AreCornerTables, AreGains, AreLists, AreRows, AreTables, IsGain};
ghost use Rattle.sp_partition.specs.declared.TheConstants.{DEGREE_LIMIT};

use crate::corners::{CornerNode, corners_of, marks_among};
use arrayvec::ArrayVec;
use sp_nodes::Mark;
use sp_partition::{DEGREE_LIMIT, Partition, all_of, rank};
use std::alloc::{AllocError, Global};
use std::marker::Model;

/// For the partitions of all degrees up to one, by their ranks: the addable and removable nodes, and for those of a
/// lesser degree the ranks of the partitions with one node more.
#[derive(Drop)]
pub struct Moves {
    e: u8,
    degree: u8,
    // For each degree, for each of its partitions, from top to bottom.
    corners: Vec<Vec<Vec<CornerNode>>>,
    // For each degree but the last, for each of its partitions, for each row: the rank of the partition with a node
    // more in this row, where the row has an addable node.
    gains: Vec<Vec<[u16; 32]>>,
}

impl Model for Moves {
    ghost use Rattle.sp_ranks.specs.Moves.{AreMoves, Scope};

    ghost Value = { Scope };

    ghost view = { λ a. record { e = a.e; degree = a.degree } };

    ghost invariant = { λ a. AreMoves (record { e = a.e; degree = a.degree }) a.gains.items a.corners.items };
}

impl Moves {
    /// Those of all degrees up to this one, with residues mod `e`.
    pub fn open(alloc: Global, e: u8, degree: u8) -> Result<Moves, AllocError>
        requires e_least { 2 ≤ e }
        requires e_most { e ≤ 64 }
        requires degree { degree ≤ DEGREE_LIMIT }
        ensures { IfOk result (λ moves. moves ≡ record { e = e; degree = degree }) }
    {
        let lists = lists_below(alloc, degree + 1)?;
        let gains = gains_below(alloc, degree, &lists)?;
        let corners = corners_below(alloc, e, &lists)?;
        Ok(Moves {
            e,
            degree,
            corners,
            gains,
        })
    }

    /// The greatest degree. It takes no memory.
    pub fn degree(&self) -> u8
        ensures value { result ≡ self.now.degree }
        ensures most { result ≤ DEGREE_LIMIT }
    {
        self.degree
    }

    /// The signature of residue `i` of the partition of a rank, from top to bottom. It takes no memory.
    pub fn marks(&self, n: u8, rank: u16, i: u8) -> ArrayVec<Mark, 33>
        requires degree { n ≤ self.now.degree }
        requires rank { rank < length (partitions n) }
        ensures { map mark_of result.items ≡ signature self.now.e i (partition_at n rank) }
    {
        marks_among(&self.corners[usize::from(n)][usize::from(rank)], i)
    }

    /// The rank of the partition with one node more in this row, counted from 1. It takes no memory.
    pub fn grown(&self, n: u8, rank: u16, row: u8) -> u16
        requires degree { n < self.now.degree }
        requires rank { rank < length (partitions n) }
        requires addable { is_addable (partition_at n rank) (row, part_of (partition_at n rank) row + 1) ≡ true }
        ensures there { result < length (partitions (n + 1)) }
        ensures grown { partition_at (n + 1) result ≡ grow (row - 1) (partition_at n rank) }
    {
        self.gains[usize::from(n)][usize::from(rank)][usize::from(row) - 1]
    }
}

// The partitions of each degree below n.
fn lists_below(alloc: Global, n: u8) -> Result<Vec<Vec<Partition>>, AllocError>
    requires { n ≤ DEGREE_LIMIT + 1 }
    ensures { IfOk result (λ lists. AreLists n lists.items) }
{
    let mut lists = Vec::with_capacity(alloc, usize::from(n))?;
    for degree in 0..n {
        lists.push(all_of(alloc, degree)?)?;
    }
    Ok(lists)
}

// For each degree below n, for each of its partitions, the ranks that it grows to.
fn gains_below(
    alloc: Global,
    n: u8,
    lists: &[Vec<Partition>],
) -> Result<Vec<Vec<[u16; 32]>>, AllocError>
    requires small { n ≤ DEGREE_LIMIT }
    requires lists { AreLists (n + 1) lists.now }
    ensures { IfOk result (λ gains. AreTables n gains.items) }
{
    let mut gains = Vec::with_capacity(alloc, usize::from(n))?;
    for degree in 0..usize::from(n) {
        gains.push(gains_of(alloc, &lists[degree], &lists[degree + 1])?)?;
    }
    Ok(gains)
}

// For each partition of a degree the ranks that it grows to. `next` are the partitions of the next degree.
fn gains_of(
    alloc: Global,
    all: &[Partition],
    next: &[Partition],
) -> Result<Vec<[u16; 32]>, AllocError>
    requires { (n : ℕ) × (all.now ≡ partitions n) × (next.now ≡ partitions (n + 1)) × (n < DEGREE_LIMIT) }
    ensures { IfOk result (λ gains. AreRows next.now all.now gains.items) }
{
    let mut gains = Vec::with_capacity(alloc, all.len())?;
    for p in all {
        gains.push(gains_in_rows(p, next))?;
    }
    Ok(gains)
}

// For each row of a partition, and the next one, the rank that it grows to there, or 0 where nothing can be added.
fn gains_in_rows(p: &Partition, next: &[Partition]) -> [u16; 32]
    requires small { degree_of p.now < DEGREE_LIMIT }
    requires next { next.now ≡ partitions (degree_of p.now + 1) }
    ensures { AreGains next.now p.now result }
{
    let mut gains = [0; 32];
    for place in 0..p.row_count() + 1 {
        gains[usize::from(place)] = gain(p, place + 1, next);
    }
    gains
}

// The rank of the partition with a node more in this row, or 0 where there is none.
fn gain(p: &Partition, row: u8, next: &[Partition]) -> u16
    requires small { degree_of p.now < DEGREE_LIMIT }
    requires next { next.now ≡ partitions (degree_of p.now + 1) }
    ensures { IsGain next.now p.now row result }
{
    match p.add_node(row) {
        Some(grown) => match rank(next, &grown) {
            Some(place) => place as u16,
            None => 0,
        },
        None => 0,
    }
}

// For each of these degrees, for each of its partitions, the addable and removable nodes.
fn corners_below(
    alloc: Global,
    e: u8,
    lists: &[Vec<Partition>],
) -> Result<Vec<Vec<Vec<CornerNode>>>, AllocError>
    requires e_least { 2 ≤ e }
    requires e_most { e ≤ 64 }
    requires lists { AreLists (length lists.now) lists.now }
    ensures { IfOk result (λ corners. AreCornerTables e (length lists.now) corners.items) }
{
    let mut corners = Vec::with_capacity(alloc, lists.len())?;
    for all in lists {
        corners.push(corners_of_all(alloc, e, all)?)?;
    }
    Ok(corners)
}

// For each of these partitions the addable and removable nodes.
fn corners_of_all(
    alloc: Global,
    e: u8,
    all: &[Partition],
) -> Result<Vec<Vec<CornerNode>>, AllocError>
    requires e_least { 2 ≤ e }
    requires e_most { e ≤ 64 }
    ensures { IfOk result (λ corners. AreCornerRows e all.now corners.items) }
{
    let mut corners = Vec::with_capacity(alloc, all.len())?;
    for p in all {
        corners.push(corners_of(alloc, e, p)?)?;
    }
    Ok(corners)
}

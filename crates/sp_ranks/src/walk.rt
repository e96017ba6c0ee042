// All moves from the partitions of a vector, down their signatures: each addable node is chosen or passed.
ghost use Rattle.std.specs.Prelude.{◌≡◌, ◌+◌, ◌*◌, ◌<◌, ◌≤◌, ◌++◌, map, length, IfOk, OnOk};
ghost use Rattle.std.specs.Prelude.{unsigned_abs, ◌+ℤ◌};
ghost use Rattle.std.specs.List.{AllByRecursion};
ghost use Rattle.sp_defs.specs.Partition.{partitions};
ghost use Rattle.sp_nodes.specs.Marks.{mark_of};
ghost use Rattle.sp_power_law.specs.Walk.{CanGrow};
ghost use Rattle.sp_power_law.specs.Runs.{arrivals};
ghost use Rattle.sp_ranks.specs.Ranks.{partition_at};
ghost use Rattle.sp_ranks.specs.Arrivals.{arrivals_at, found_at, AreThere};

use crate::{Moves, RankVector};
use sp_nodes::{Corner, Mark};
use sp_partition::DEGREE_LIMIT;
use std::alloc::{AllocError, Global};

/// A move that leads to the partition of a rank: the place in the vector that it comes from, and its exponent.
#[derive(Clone, Copy, Debug)]
pub(crate) struct Arrival {
    pub(crate) rank: u16,
    pub(crate) exponent: i16,
    pub(crate) source: u32,
}

// A move on its way down a signature.
#[derive(Clone, Copy)]
pub(crate) struct Way {
    // of the partition with the nodes chosen so far
    pub(crate) rank: u16,
    // the addable nodes passed and not chosen, minus the removable nodes passed
    pub(crate) difference: i16,
    // the differences at the nodes chosen
    pub(crate) exponent: i16,
}

/// All moves of m nodes of residue `i` from the partitions of the vector.
pub(crate) fn all_moves(
    alloc: Global,
    moves: &Moves,
    e: u8,
    i: u8,
    m: u8,
    v: &RankVector,
) -> Result<Vec<Arrival>, AllocError>
    requires e_least { 2 ≤ e }
    requires e_most { e ≤ 64 }
    requires below { i < e }
    requires residues { moves.now.e ≡ e }
    requires room { v.now.degree + m ≤ moves.now.degree }
    ensures found { IfOk result
        (λ found. arrivals_at (v.now.degree + m) found.items ≡ arrivals e i m 0 v.now.entries) }
    ensures there { IfOk result
        (λ found. AllByRecursion (λ t. t.rank < length (partitions (v.now.degree + m))) found.items) }
{
    let _most = moves.degree();
    let n = v.degree();
    let mut found = Vec::new(alloc);
    for source in 0..v.count() {
        let rank = v.rank(source);
        let marks = moves.marks(n, rank, i);
        let way = Way {
            rank,
            difference: 0,
            exponent: 0,
        };
        push_moves(&mut found, moves, n, source as u32, &marks, m, way)?;
    }
    Ok(found)
}

// Adds the moves that choose `left` more nodes, from a way whose partition is of degree n.
fn push_moves(
    found: &mut Vec<Arrival>,
    moves: &Moves,
    n: u8,
    source: u32,
    marks: &[Mark],
    left: u8,
    way: Way,
) -> Result<(), AllocError>
    requires rank { way.rank < length (partitions n) }
    requires grows { CanGrow (map mark_of marks.now) (partition_at n way.rank) }
    requires room { n + left ≤ moves.now.degree }
    requires small_degree { moves.now.degree ≤ DEGREE_LIMIT }
    requires near { unsigned_abs way.difference + length marks.now ≤ 33 }
    requires small { unsigned_abs way.exponent + left * 33 ≤ 2000 }
    ensures found { OnOk result (arrivals_at (n + left) found.new.items ≡
        arrivals_at (n + left) found.old.items ++ found_at n source marks.now left way) }
    ensures there { OnOk result (AreThere (n + left) found.old.items → AreThere (n + left) found.new.items) }
{
    if left == 0 {
        found.push(way.arrival(source))?;
        return Ok(());
    }
    let mut rest = marks;
    let mut at = way;
    while let [first, below @ ..] = rest {
        if rest.len() < usize::from(left) {
            return Ok(());
        }
        match first.corner {
            Corner::Addable => {
                let chosen = Way {
                    rank: moves.grown(n, at.rank, first.node.row),
                    difference: at.difference,
                    exponent: at.exponent + at.difference,
                };
                // the last node by itself, since nearly all calls would be for one
                if left == 1 {
                    found.push(chosen.arrival(source))?;
                } else {
                    push_moves(found, moves, n + 1, source, below, left - 1, chosen)?;
                }
                at = at.passed(1);
            }
            Corner::Removable => at = at.passed(-1),
        }
        rest = below;
    }
    Ok(())
}

impl Way {
    // The move that has come to its end.
    fn arrival(self, source: u32) -> Arrival
        ensures { result ≡ record { rank = self.rank; exponent = self.exponent; source = source } }
    {
        Arrival {
            rank: self.rank,
            exponent: self.exponent,
            source,
        }
    }

    // A node is passed, which counts so much.
    fn passed(self, step: i16) -> Way
        requires near { unsigned_abs self.difference ≤ 33 }
        requires step { unsigned_abs step ≤ 1 }
        ensures { result ≡ record { rank = self.rank; difference = self.difference +ℤ step; exponent = self.exponent } }
    {
        Way {
            rank: self.rank,
            difference: self.difference + step,
            exponent: self.exponent,
        }
    }
}

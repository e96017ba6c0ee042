// All moves from a partition, down its signature: each addable node is chosen or passed.
ghost use Rattle.std.specs.Prelude.{◌≡◌, ◌+◌, ◌-◌, ◌*◌, ◌<◌, ◌≤◌, true, ◌++◌, map, length, IfOk, OnOk};
ghost use Rattle.std.specs.Prelude.{unsigned_abs, pos, ◌+ℤ◌};
ghost use Rattle.std.specs.List.{AllByRecursion};
ghost use Rattle.sp_defs.specs.Partition.{degree as degree_of, part as part_of};
ghost use Rattle.sp_defs.specs.Node.{is_addable};
ghost use Rattle.sp_defs.specs.Signature.{grow};
ghost use Rattle.sp_nodes.specs.Marks.{letter, mark_of};
ghost use Rattle.sp_power_law.specs.Walk.{CanGrow};
ghost use Rattle.sp_power_law.specs.Runs.{arrivals};
ghost use Rattle.sp_power.specs.Arrivals.{found_from, passed, HasRoom};

use sp_laurent::Laurent;
use sp_nodes::{Corner, Mark, marks};
use sp_partition::Partition;
use std::alloc::{AllocError, Global};
use std::marker::Model;

/// A move that leads to a partition: the place of the pair that it comes from, and its exponent.
#[derive(Drop)]
pub(crate) struct Arrival {
    pub(crate) partition: Partition,
    pub(crate) source: usize,
    pub(crate) exponent: i32,
}

impl Model for Arrival {
    ghost use Rattle.std.specs.Prelude.{ℕ, ℤ, List};

    ghost Value = { List ℕ × ℕ × ℤ };

    ghost view = { λ a. (a.partition, a.source, a.exponent) };
}

// A move on its way down a signature.
#[derive(Drop)]
struct Way {
    // with the nodes chosen so far
    partition: Partition,
    // the addable nodes passed and not chosen, minus the removable nodes passed
    difference: i32,
    // the differences at the nodes chosen
    exponent: i32,
}

impl Way {
    // One that begins at this partition.
    fn from(partition: Partition) -> Way
        ensures partition { result.partition ≡ partition }
        ensures difference { result.difference ≡ pos 0 }
        ensures exponent { result.exponent ≡ pos 0 }
    {
        Way {
            partition,
            difference: 0,
            exponent: 0,
        }
    }

    // The node that this row can gain is chosen.
    fn choose(&self, row: u8) -> Way
        requires addable { is_addable self.now.partition (row, part_of self.now.partition row + 1) ≡ true }
        requires room { degree_of self.now.partition < 32 }
        requires near { unsigned_abs self.now.difference ≤ 33 }
        requires small { unsigned_abs self.now.exponent ≤ 2000 }
        ensures partition { result.partition ≡ grow (row - 1) self.now.partition }
        ensures difference { result.difference ≡ self.now.difference }
        ensures exponent { result.exponent ≡ self.now.exponent +ℤ self.now.difference }
    {
        Way {
            partition: self.partition.add_node(row).unwrap(),
            difference: self.difference,
            exponent: self.exponent + self.difference,
        }
    }

    // A node is passed.
    fn pass(&self, corner: Corner) -> Way
        requires near { unsigned_abs self.now.difference ≤ 33 }
        ensures partition { result.partition ≡ self.now.partition }
        ensures difference { result.difference ≡ passed (letter corner) self.now.difference }
        ensures exponent { result.exponent ≡ self.now.exponent }
    {
        let step = match corner {
            Corner::Addable => 1,
            Corner::Removable => -1,
        };
        Way {
            partition: self.partition,
            difference: self.difference + step,
            exponent: self.exponent,
        }
    }
}

/// All moves of m nodes of residue `i` from the partitions of these pairs.
pub(crate) fn all_moves(
    alloc: Global,
    e: u8,
    i: u8,
    m: u8,
    pairs: &[(Partition, Laurent)],
) -> Result<Vec<Arrival>, AllocError>
    requires e_least { 2 ≤ e }
    requires e_most { e ≤ 64 }
    requires below { i < e }
    requires room { AllByRecursion (HasRoom m) pairs.now }
    ensures { IfOk result (λ found. found.items ≡ arrivals e i m 0 pairs.now) }
{
    let mut found = Vec::new(alloc);
    for (source, pair) in pairs.iter().enumerate() {
        let marks = marks(e, i, &pair.0);
        push_moves(&mut found, source, &marks, m, &Way::from(pair.0))?;
    }
    Ok(found)
}

// Adds the moves that choose `left` more nodes.
fn push_moves(
    arrivals: &mut Vec<Arrival>,
    source: usize,
    marks: &[Mark],
    left: u8,
    way: &Way,
) -> Result<(), AllocError>
    requires grows { CanGrow (map mark_of marks.now) way.now.partition }
    requires room { degree_of way.now.partition + left ≤ 32 }
    requires near { unsigned_abs way.now.difference + length marks.now ≤ 33 }
    requires small { unsigned_abs way.now.exponent + left * 33 ≤ 2000 }
    ensures { OnOk result (arrivals.new.items ≡ arrivals.old.items ++ found_from source marks.now left way.now) }
{
    if left == 0 {
        arrivals.push(Arrival {
            partition: way.partition,
            source,
            exponent: way.exponent,
        })?;
        return Ok(());
    }
    let [first, below @ ..] = marks else {
        return Ok(());
    };
    let mark = *first;
    match mark.corner {
        Corner::Addable => {
            push_moves(
                arrivals,
                source,
                below,
                left - 1,
                &way.choose(mark.node.row),
            )?;
            push_moves(arrivals, source, below, left, &way.pass(Corner::Addable))
        }
        Corner::Removable => push_moves(
            arrivals,
            source,
            below,
            left,
            &way.pass(Corner::Removable),
        ),
    }
}

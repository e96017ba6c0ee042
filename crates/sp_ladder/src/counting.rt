// The ladders of a partition.
ghost use Rattle.std.specs.Prelude.{◌≡◌, ◌+◌, ◌-◌, ◌*◌, ◌<◌, ◌≤◌, ℕ, length, map, count_by, nat_eq, max, slice_index};
ghost use Rattle.std.specs.Prelude.{replicate};
ghost use Rattle.sp_defs.specs.Partition.{from_one_to};
ghost use Rattle.sp_defs.specs.Ladder.{ladder_of, ladders as ladders_of, ladders_end as ladders_end_of, on_ladder};
ghost use Rattle.sp_defs.specs.Ladder.{ladder_residue as ladder_residue_of};
ghost use Rattle.sp_partition.specs.Held.{IsHeld};
ghost use Rattle.sp_ladder.specs.Steps.{step_on};

use crate::Step;
use arrayvec::ArrayVec;
use sp_partition::Partition;

/// One more than the greatest ladder number of a node of a `Partition`, for e up to 64.
const LADDERS: usize = 1955;

/// The ladders on which the partition has nodes, ascending.
pub fn ladders(e: u8, mu: &Partition) -> ArrayVec<Step, 32>
    requires at_least { 2 ≤ e }
    requires at_most { e ≤ 64 }
    ensures { result.items ≡ map (step_on e mu.now) (ladders_of e mu.now) }
{
    let counts = nodes_on_ladders(e, mu);
    let mut found = ArrayVec::new();
    for ladder in 1..ladders_end(e, mu) + 1 {
        let count = counts[ladder as usize];
        if count > 0 {
            found.push(Step {
                ladder,
                residue: ladder_residue(e, ladder),
                count,
            });
        }
    }
    found
}

// The residue of the nodes of a ladder.
fn ladder_residue(e: u8, ladder: u16) -> u8
    requires at_least { 2 ≤ e }
    requires at_most { e ≤ 64 }
    requires ladder { ladder < LADDERS }
    ensures { result ≡ ladder_residue_of e ladder }
{
    ((1 + u32::from(e) * u32::from(ladder) - u32::from(ladder)) % u32::from(e)) as u8
}

// The greatest ladder number of a node, or 0.
fn ladders_end(e: u8, mu: &Partition) -> u16
    requires at_least { 2 ≤ e }
    requires at_most { e ≤ 64 }
    ensures value { result ≡ ladders_end_of e mu.now }
    ensures bound { result < LADDERS }
{
    let mut end = 0;
    let mut row = 0;
    for part in mu.parts() {
        row += 1;
        end = greater(end, last_ladder(e, row, *part));
    }
    end
}

fn greater(first: u16, second: u16) -> u16
    ensures { result ≡ max first second }
{
    if first < second { second } else { first }
}

// The ladder of the last node of a row.
fn last_ladder(e: u8, row: u16, part: u8) -> u16
    requires at_least { 2 ≤ e }
    requires at_most { e ≤ 64 }
    requires some { 0 < part }
    requires small { row + 63 * (part - 1) < LADDERS }
    ensures value { result ≡ ladder_of e (row, part) }
    ensures bound { result < LADDERS }
{
    let right = (u32::from(e) - 1) * (u32::from(part) - 1);
    (u32::from(row) + right) as u16
}

// How many nodes stand on each ladder.
fn nodes_on_ladders(e: u8, mu: &Partition) -> [u8; LADDERS]
    requires at_least { 2 ≤ e }
    requires at_most { e ≤ 64 }
    ensures counts { (l : ℕ) → l < LADDERS → slice_index result l ≡ on_ladder e mu.now l }
    ensures held { IsHeld mu.now }
{
    let mut counts = no_nodes();
    let mut row = 0;
    for part in mu.parts() {
        row += 1;
        count_row(&mut counts, e, row, *part);
    }
    counts
}

fn no_nodes() -> [u8; LADDERS]
    ensures { result ≡ replicate LADDERS 0 }
{
    [0; LADDERS]
}

// Counts the nodes of one row.
fn count_row(counts: &mut [u8], e: u8, row: u16, part: u8)
    requires at_least { 2 ≤ e }
    requires at_most { e ≤ 64 }
    requires some { 0 < part }
    requires size { length counts.old ≡ LADDERS }
    requires small { row + 63 * (part - 1) < LADDERS }
    requires room { (l : ℕ) → l < LADDERS → slice_index counts.old l + part < 256 }
    ensures { (l : ℕ) → l < LADDERS →
        slice_index counts.new l ≡
        slice_index counts.old l
        + count_by (λ x. nat_eq (ladder_of e x) l) (map (λ c. (row, c)) (from_one_to part)) }
{
    let mut ladder = usize::from(row);
    for column in 0..part {
        counts[ladder] += 1;
        ladder += usize::from(e) - 1;
    }
}

// Horizontal strips whose nodes are covered by those of the strip before.
ghost use Rattle.std.specs.Prelude.{◌≡◌, ◌+◌, ◌≤◌, ◌<◌, ◌++◌, ◌∷◌, [], List, ℕ, IfOk, OnOk, length, slice_index};
ghost use Rattle.sp_defs.specs.Partition.{degree as degree_of, part as part_of};
ghost use Rattle.sp_partition.specs.Held.{IsHeld};
ghost use Rattle.sp_lr.specs.Strips.{strips as strips_of, rows_of, last_rows, strips_after, Falls, AreHeld, behind};
ghost use Rattle.sp_lr.specs.Strips.{all_gained, IsRoom};

use arrayvec::ArrayVec;
use sp_partition::Partition;
use std::alloc::{AllocError, Global};

// A row of a partition, and how many nodes it has more than before the last strip.
#[derive(Clone, Copy, Debug, Default)]
pub(crate) struct Row {
    length: u8,
    gained: u8,
}

// The partitions with `count` nodes more than `last`, no two of them in a column, whose first rows, as many as one
// likes, have at most `spare` of them above those that the rows before these have more in `last` than in `before`.
// Descending.
pub(crate) fn strips(
    alloc: Global,
    before: &Partition,
    last: &Partition,
    spare: u8,
    count: u8,
) -> Result<Vec<Partition>, AllocError>
    requires room { IsRoom before.now last.now spare }
    requires small { degree_of last.now + count ≤ 32 }
    ensures { IfOk result (λ list. list.items ≡ strips_after before.now last.now spare count) }
{
    let rows = rows(before, last);
    let mut list = Vec::new(alloc);
    let mut front = ArrayVec::new();
    push_strips(
        &mut list,
        &mut front,
        rows.as_slice(),
        last.part(1) + count,
        spare,
        count,
    )?;
    Ok(list)
}

// The rows of `last`.
fn rows(before: &Partition, last: &Partition) -> ArrayVec<Row, 32>
    requires { (i : ℕ) → slice_index before.now i ≤ slice_index last.now i }
    ensures { result.items ≡ rows_of before.now last.now }
{
    let mut rows = ArrayVec::new();
    for row in 1..last.row_count() + 1 {
        rows.push(Row {
            length: last.part(row),
            gained: last.part(row) - before.part(row),
        });
    }
    rows
}

// Appends what the parts of `front` can go on with: in each of these rows, and in a new one below, some of `left` nodes
// more, so that no row is longer than the one above was.
fn push_strips(
    list: &mut Vec<Partition>,
    front: &mut ArrayVec<u8, 33>,
    rows: &[Row],
    above: u8,
    spare: u8,
    left: u8,
) -> Result<(), AllocError>
    requires falls { Falls above rows.now }
    requires room { length front.old.items + length rows.now ≤ 32 }
    requires spared { spare + all_gained rows.now ≤ 64 }
    requires held { AreHeld front.old.items (strips_of rows.now above spare left) }
    ensures strips { OnOk result
        (list.new.items ≡ list.old.items ++ behind front.old.items (strips_of rows.now above spare left)) }
    ensures front { OnOk result (front.new.items ≡ front.old.items) }
{
    let most = left.min(spare);
    match rows {
        [] => push_last(list, front, most.min(above), left),
        [row, below @ ..] => {
            for more in (0..most.min(above - row.length) + 1).rev() {
                front.push(row.length + more);
                push_strips(
                    list,
                    front,
                    below,
                    row.length,
                    spare - more + row.gained,
                    left - more,
                )?;
                front.pop();
            }
            Ok(())
        }
    }
}

// Appends the parts of `front` with what is left in a row of its own, if it is at most `most`.
fn push_last(
    list: &mut Vec<Partition>,
    front: &mut ArrayVec<u8, 33>,
    most: u8,
    left: u8,
) -> Result<(), AllocError>
    requires room { length front.old.items ≤ 32 }
    requires held { AreHeld front.old.items (last_rows most left) }
    ensures rows { OnOk result (list.new.items ≡ list.old.items ++ behind front.old.items (last_rows most left)) }
    ensures front { OnOk result (front.new.items ≡ front.old.items) }
{
    if left > most {
        return Ok(());
    }
    if left == 0 {
        return push_partition(list, front.as_slice());
    }
    front.push(left);
    push_partition(list, front.as_slice())?;
    front.pop();
    Ok(())
}

// Appends one partition.
pub(crate) fn append(list: &mut Vec<Partition>, partition: Partition) -> Result<(), AllocError>
    ensures { OnOk result (list.new.items ≡ list.old.items ++ partition ∷ []) }
{
    list.push(partition)?;
    Ok(())
}

// Appends the partition with these parts.
fn push_partition(list: &mut Vec<Partition>, parts: &[u8]) -> Result<(), AllocError>
    requires { IsHeld parts.now }
    ensures { OnOk result (list.new.items ≡ list.old.items ++ parts.now ∷ []) }
{
    append(list, Partition::from_parts(parts).unwrap())
}

//! The form Plain: lines of words.
ghost use Rattle.std.specs.Prelude.{◌≡◌, ◌++◌, take, length, flat_map, OnOk, OnErr};
ghost use Rattle.sp_paint.specs.Page.{plain_cell_text, plain_column_text, plain_head, plain_page, plain_row_text};
ghost use Rattle.sp_paint.specs.Page.{rows_of};

use sp_fock::{Grid, Row};
use sp_laurent::Laurent;
use sp_partition::Partition;
use std::alloc::{AllocError, Global};

/// Appends a line for the columns, and a line for each line of the grid. An `Err` may leave more at the end of `out`,
/// here and below.
pub(crate) fn put_plain_page(
    alloc: Global,
    grid: &Grid,
    out: &mut Vec<u8>,
) -> Result<(), AllocError>
    ensures text { OnOk result (out.new.items ≡ out.old.items ++ plain_page grid.now) }
    ensures kept { OnErr result (take (length out.old.items) out.new.items ≡ out.old.items) }
{
    put_head(alloc, grid.columns(), out)?;
    put_rows(alloc, grid, out)
}

fn put_head(alloc: Global, columns: &[Partition], out: &mut Vec<u8>) -> Result<(), AllocError>
    ensures text { OnOk result (out.new.items ≡ out.old.items ++ plain_head columns.now) }
    ensures kept { OnErr result (take (length out.old.items) out.new.items ≡ out.old.items) }
{
    out.extend_from_slice(b"columns")?;
    put_columns(alloc, columns, out)?;
    Ok(out.push(b'\n')?)
}

fn put_columns(alloc: Global, columns: &[Partition], out: &mut Vec<u8>) -> Result<(), AllocError>
    ensures text { OnOk result (out.new.items ≡ out.old.items ++ flat_map plain_column_text columns.now) }
    ensures kept { OnErr result (take (length out.old.items) out.new.items ≡ out.old.items) }
{
    for column in columns {
        put_column(alloc, column, out)?;
    }
    Ok(())
}

fn put_column(alloc: Global, column: &Partition, out: &mut Vec<u8>) -> Result<(), AllocError>
    ensures text { OnOk result (out.new.items ≡ out.old.items ++ plain_column_text column.now) }
    ensures kept { OnErr result (take (length out.old.items) out.new.items ≡ out.old.items) }
{
    out.push(b' ')?;
    column.print(alloc, out)
}

fn put_rows(alloc: Global, grid: &Grid, out: &mut Vec<u8>) -> Result<(), AllocError>
    ensures text { OnOk result (out.new.items ≡ out.old.items ++ flat_map plain_row_text (rows_of grid.now)) }
    ensures kept { OnErr result (take (length out.old.items) out.new.items ≡ out.old.items) }
{
    let lines = grid.lines();
    for place in 0..lines.len() {
        put_row(alloc, &lines[place], grid.row(place), out)?;
    }
    Ok(())
}

// A line of the grid.
fn put_row(
    alloc: Global,
    line: &Partition,
    cells: Row<'_>,
    out: &mut Vec<u8>,
) -> Result<(), AllocError>
    ensures text { OnOk result (out.new.items ≡ out.old.items ++ plain_row_text (line.now, cells.entry)) }
    ensures kept { OnErr result (take (length out.old.items) out.new.items ≡ out.old.items) }
{
    line.print(alloc, out)?;
    out.push(b':')?;
    put_cells(alloc, cells, out)?;
    Ok(out.push(b'\n')?)
}

fn put_cells(alloc: Global, cells: Row<'_>, out: &mut Vec<u8>) -> Result<(), AllocError>
    ensures text { OnOk result (out.new.items ≡ out.old.items ++ flat_map plain_cell_text cells.entry) }
    ensures kept { OnErr result (take (length out.old.items) out.new.items ≡ out.old.items) }
{
    for cell in cells {
        put_cell(alloc, cell, out)?;
    }
    Ok(())
}

fn put_cell(alloc: Global, cell: &Laurent, out: &mut Vec<u8>) -> Result<(), AllocError>
    ensures text { OnOk result (out.new.items ≡ out.old.items ++ plain_cell_text cell.now) }
    ensures kept { OnErr result (take (length out.old.items) out.new.items ≡ out.old.items) }
{
    match cell.terms() {
        [] => out.extend_from_slice(b" ."),
        [_, ..] => {
            out.push(b' ')?;
            cell.print(alloc, out)
        }
    }
}

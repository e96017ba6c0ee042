//! The form Tex: tables in LaTeX.
ghost use Rattle.std.specs.Prelude.{◌≡◌, ◌++◌, take, length, flat_map, codes, OnOk, OnErr};
ghost use Rattle.sp_paint.specs.Page.{rows_of, tex_cell_text, tex_column_text, tex_head, tex_opening, tex_page};
ghost use Rattle.sp_paint.specs.Page.{tex_partition_text, tex_row_text};

use crate::notation::{Notation, put_polynomial};
use crate::parts::put_partition;
use crate::text::put_number;
use sp_fock::{Grid, Row};
use sp_laurent::Laurent;
use sp_partition::Partition;
use std::alloc::AllocError;

/// Appends a table with this number. An `Err` may leave more at the end of `out`, here and below.
pub(crate) fn put_tex_page(number: u64, grid: &Grid, out: &mut Vec<u8>) -> Result<(), AllocError>
    ensures text { OnOk result (out.new.items ≡ out.old.items ++ tex_page number grid.now) }
    ensures kept { OnErr result (take (length out.old.items) out.new.items ≡ out.old.items) }
{
    put_opening(number, grid.columns(), out)?;
    put_head(grid.columns(), out)?;
    put_rows(grid, out)?;
    out.extend_from_slice(b"\\end{tabular}\n")
}

// The number of the page and the form of the columns.
fn put_opening(number: u64, columns: &[Partition], out: &mut Vec<u8>) -> Result<(), AllocError>
    ensures text { OnOk result (out.new.items ≡ out.old.items ++ tex_opening number columns.now) }
    ensures kept { OnErr result (take (length out.old.items) out.new.items ≡ out.old.items) }
{
    out.extend_from_slice(b"% table ")?;
    put_number(number, out)?;
    out.extend_from_slice(b"\n\\begin{tabular}{l|")?;
    put_letters(columns, out)?;
    out.extend_from_slice(b"}\n")
}

fn put_head(columns: &[Partition], out: &mut Vec<u8>) -> Result<(), AllocError>
    ensures text { OnOk result (out.new.items ≡ out.old.items ++ tex_head columns.now) }
    ensures kept { OnErr result (take (length out.old.items) out.new.items ≡ out.old.items) }
{
    put_columns(columns, out)?;
    out.extend_from_slice(b" \\\\\n")
}

// A letter for each column, which says that its texts are centred.
fn put_letters(columns: &[Partition], out: &mut Vec<u8>) -> Result<(), AllocError>
    ensures text { OnOk result (out.new.items ≡ out.old.items ++ flat_map (λ mu. codes "c") columns.now) }
    ensures kept { OnErr result (take (length out.old.items) out.new.items ≡ out.old.items) }
{
    for _column in columns {
        out.push(b'c')?;
    }
    Ok(())
}

fn put_columns(columns: &[Partition], out: &mut Vec<u8>) -> Result<(), AllocError>
    ensures text { OnOk result (out.new.items ≡ out.old.items ++ flat_map tex_column_text columns.now) }
    ensures kept { OnErr result (take (length out.old.items) out.new.items ≡ out.old.items) }
{
    for column in columns {
        put_column(column, out)?;
    }
    Ok(())
}

fn put_column(column: &Partition, out: &mut Vec<u8>) -> Result<(), AllocError>
    ensures text { OnOk result (out.new.items ≡ out.old.items ++ tex_column_text column.now) }
    ensures kept { OnErr result (take (length out.old.items) out.new.items ≡ out.old.items) }
{
    out.extend_from_slice(b" & ")?;
    put_heading(column, out)
}

// A partition in mathematical mode.
fn put_heading(partition: &Partition, out: &mut Vec<u8>) -> Result<(), AllocError>
    ensures text { OnOk result (out.new.items ≡ out.old.items ++ tex_partition_text partition.now) }
    ensures kept { OnErr result (take (length out.old.items) out.new.items ≡ out.old.items) }
{
    out.push(b'$')?;
    put_partition(Notation::Braced, partition, out)?;
    Ok(out.push(b'$')?)
}

fn put_rows(grid: &Grid, out: &mut Vec<u8>) -> Result<(), AllocError>
    ensures text { OnOk result (out.new.items ≡ out.old.items ++ flat_map tex_row_text (rows_of grid.now)) }
    ensures kept { OnErr result (take (length out.old.items) out.new.items ≡ out.old.items) }
{
    let lines = grid.lines();
    for place in 0..lines.len() {
        put_row(&lines[place], grid.row(place), out)?;
    }
    Ok(())
}

// A line of the grid.
fn put_row(line: &Partition, cells: Row<'_>, out: &mut Vec<u8>) -> Result<(), AllocError>
    ensures text { OnOk result (out.new.items ≡ out.old.items ++ tex_row_text (line.now, cells.entry)) }
    ensures kept { OnErr result (take (length out.old.items) out.new.items ≡ out.old.items) }
{
    put_heading(line, out)?;
    put_cells(cells, out)?;
    out.extend_from_slice(b" \\\\\n")
}

fn put_cells(cells: Row<'_>, out: &mut Vec<u8>) -> Result<(), AllocError>
    ensures text { OnOk result (out.new.items ≡ out.old.items ++ flat_map tex_cell_text cells.entry) }
    ensures kept { OnErr result (take (length out.old.items) out.new.items ≡ out.old.items) }
{
    for cell in cells {
        put_cell(cell, out)?;
    }
    Ok(())
}

fn put_cell(cell: &Laurent, out: &mut Vec<u8>) -> Result<(), AllocError>
    ensures text { OnOk result (out.new.items ≡ out.old.items ++ tex_cell_text cell.now) }
    ensures kept { OnErr result (take (length out.old.items) out.new.items ≡ out.old.items) }
{
    match cell.terms() {
        [] => out.extend_from_slice(b" & ."),
        [_, ..] => {
            out.extend_from_slice(b" & $")?;
            put_polynomial(Notation::Braced, cell, out)?;
            Ok(out.push(b'$')?)
        }
    }
}

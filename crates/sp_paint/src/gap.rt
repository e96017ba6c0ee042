//! The form Gap: matrices as lists of lists.
ghost use Rattle.std.specs.Prelude.{◌≡◌, ◌++◌, cond, nat_eq, [], take, length, map, flat_map, codes, OnOk, OnErr};
ghost use Rattle.sp_defs.specs.Text.{joined_by};
ghost use Rattle.sp_paint.specs.Notation.{polynomial_text};
ghost use Rattle.sp_paint.specs.Page.{gap_later_text, gap_page, gap_row_text};

use crate::notation::{Notation, put_polynomial};
use crate::text::{put_comma, put_number};
use sp_fock::{Grid, Row};
use sp_laurent::Laurent;
use std::alloc::AllocError;

/// Appends a matrix with this number. An `Err` may leave more at the end of `out`, here and below.
pub(crate) fn put_gap_page(number: u64, grid: &Grid, out: &mut Vec<u8>) -> Result<(), AllocError>
    ensures text { OnOk result (out.new.items ≡ out.old.items ++ gap_page number grid.now) }
    ensures kept { OnErr result (take (length out.old.items) out.new.items ≡ out.old.items) }
{
    out.push(b'm')?;
    put_number(number, out)?;
    out.extend_from_slice(b" := [")?;
    put_rows(grid, out)?;
    out.extend_from_slice(b"];\n")
}

fn put_rows(grid: &Grid, out: &mut Vec<u8>) -> Result<(), AllocError>
    ensures text { OnOk result (
        out.new.items ≡ out.old.items ++ joined_by (codes ",") (map gap_row_text grid.now.cells)) }
    ensures kept { OnErr result (take (length out.old.items) out.new.items ≡ out.old.items) }
{
    let lines = grid.lines();
    for place in 0..lines.len() {
        put_next_row(place, grid.row(place), out)?;
    }
    Ok(())
}

// The cells of the line at this place, behind the comma.
fn put_next_row(place: usize, cells: Row<'_>, out: &mut Vec<u8>) -> Result<(), AllocError>
    ensures text { OnOk result (
        out.new.items ≡ out.old.items ++ (cond (nat_eq place 0) [] (codes ",") ++ gap_row_text cells.entry)) }
    ensures kept { OnErr result (take (length out.old.items) out.new.items ≡ out.old.items) }
{
    put_comma(place, out)?;
    out.push(b'[')?;
    put_cells(cells, out)?;
    Ok(out.push(b']')?)
}

fn put_cells(mut cells: Row<'_>, out: &mut Vec<u8>) -> Result<(), AllocError>
    ensures text { OnOk result (
        out.new.items ≡ out.old.items ++ joined_by (codes ",") (map (polynomial_text Notation.Starred) cells.entry)) }
    ensures kept { OnErr result (take (length out.old.items) out.new.items ≡ out.old.items) }
{
    let Some(first) = cells.next() else {
        return Ok(());
    };
    put_polynomial(Notation::Starred, first, out)?;
    put_later_cells(cells, out)
}

fn put_later_cells(cells: Row<'_>, out: &mut Vec<u8>) -> Result<(), AllocError>
    ensures text { OnOk result (out.new.items ≡ out.old.items ++ flat_map gap_later_text cells.entry) }
    ensures kept { OnErr result (take (length out.old.items) out.new.items ≡ out.old.items) }
{
    for cell in cells {
        put_later_cell(cell, out)?;
    }
    Ok(())
}

fn put_later_cell(cell: &Laurent, out: &mut Vec<u8>) -> Result<(), AllocError>
    ensures text { OnOk result (out.new.items ≡ out.old.items ++ gap_later_text cell.now) }
    ensures kept { OnErr result (take (length out.old.items) out.new.items ≡ out.old.items) }
{
    out.push(b',')?;
    put_polynomial(Notation::Starred, cell, out)
}

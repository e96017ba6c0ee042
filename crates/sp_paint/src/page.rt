//! Pages and trailers, by their forms.
ghost use Rattle.std.specs.Prelude.{◌≡◌, ◌++◌, take, length, OnOk, OnErr};
ghost use Rattle.sp_paint.specs.Page.{closing_text, page_text};

use crate::Form;
use crate::gap::put_gap_page;
use crate::plain::put_plain_page;
use crate::tex::put_tex_page;
use crate::text::put_number;
use sp_fock::Grid;
use std::alloc::{AllocError, Global};

/// Appends the page of a form with this number. An `Err` leaves `out` as it was.
pub fn put_page(
    alloc: Global,
    form: Form,
    number: u64,
    grid: &Grid,
    out: &mut Vec<u8>,
) -> Result<(), AllocError>
    ensures text { OnOk result (out.new.items ≡ out.old.items ++ page_text form number grid.now) }
    ensures kept { OnErr result (out.new.items ≡ out.old.items) }
{
    let start = out.len();
    let printed = match form {
        Form::Plain => put_plain_page(alloc, grid, out),
        Form::Tex => put_tex_page(number, grid, out),
        Form::Gap => put_gap_page(number, grid, out),
    };
    if printed.is_err() {
        out.truncate(start);
    }
    printed
}

/// Appends the trailer of a form after this number of pages. An `Err` leaves `out` as it was.
pub fn put_trailer(form: Form, pages: u64, out: &mut Vec<u8>) -> Result<(), AllocError>
    ensures text { OnOk result (out.new.items ≡ out.old.items ++ closing_text form pages) }
    ensures kept { OnErr result (out.new.items ≡ out.old.items) }
{
    let length = out.len();
    let printed = put_closing(form, pages, out);
    if printed.is_err() {
        out.truncate(length);
    }
    printed
}

// An `Err` may leave more at the end of `out`.
fn put_closing(form: Form, pages: u64, out: &mut Vec<u8>) -> Result<(), AllocError>
    ensures text { OnOk result (out.new.items ≡ out.old.items ++ closing_text form pages) }
    ensures kept { OnErr result (take (length out.old.items) out.new.items ≡ out.old.items) }
{
    if pages == 0 {
        return Ok(());
    }
    match form {
        Form::Plain => return Ok(()),
        Form::Tex => out.extend_from_slice(b"% tables ")?,
        Form::Gap => out.extend_from_slice(b"# matrices ")?,
    }
    put_number(pages, out)?;
    Ok(out.push(b'\n')?)
}

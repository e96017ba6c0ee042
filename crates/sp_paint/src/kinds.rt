//! The painters of this crate, one for each form, with the name of the form.
ghost use Rattle.std.specs.Prelude.{◌≡◌, ◌++◌, OnOk, OnErr};
ghost use Rattle.sp_paint.specs.Page.{page_text};
ghost use Rattle.sp_paint.specs.State.{named_by_form, one_more};
ghost use Rattle.sp_paint.specs.declared.form.Form.TheVariants.{Plain as plain_form, Tex as tex_form, Gap as gap_form};

use crate::{Form, Painter, put_page, put_trailer};
use sp_fock::Grid;
use std::alloc::{AllocError, Global};

/// Paints lines of words. Its name is `plain`.
#[derive(Debug, Drop)]
pub struct Plain {
    pages: u64,
}

impl Plain {
    /// A painter with no page so far. It takes no memory.
    pub fn new() -> Plain
        ensures { ⟦<Plain as Painter>⟧.state result ≡ named_by_form Form.Plain 0 }
    {
        Plain { pages: 0 }
    }
}

impl Painter for Plain {
    ghost state = { λ p. named_by_form plain_form p.pages };

    fn name(&self) -> &str {
        "plain"
    }

    fn page(&mut self, alloc: Global, grid: &Grid, out: &mut Vec<u8>) -> Result<(), AllocError> {
        put_next_page(alloc, Form::Plain, &mut self.pages, grid, out)
    }

    fn trailer(&self, _alloc: Global, out: &mut Vec<u8>) -> Result<(), AllocError> {
        put_trailer(Form::Plain, self.pages, out)
    }
}

/// Paints tables in LaTeX, with numbers. Its name is `tex`.
#[derive(Debug, Drop)]
pub struct Tex {
    pages: u64,
}

impl Tex {
    /// A painter with no page so far. It takes no memory.
    pub fn new() -> Tex
        ensures { ⟦<Tex as Painter>⟧.state result ≡ named_by_form Form.Tex 0 }
    {
        Tex { pages: 0 }
    }
}

impl Painter for Tex {
    ghost state = { λ p. named_by_form tex_form p.pages };

    fn name(&self) -> &str {
        "tex"
    }

    fn page(&mut self, alloc: Global, grid: &Grid, out: &mut Vec<u8>) -> Result<(), AllocError> {
        put_next_page(alloc, Form::Tex, &mut self.pages, grid, out)
    }

    fn trailer(&self, _alloc: Global, out: &mut Vec<u8>) -> Result<(), AllocError> {
        put_trailer(Form::Tex, self.pages, out)
    }
}

/// Paints matrices as lists of lists, with numbers. Its name is `gap`.
#[derive(Debug, Drop)]
pub struct Gap {
    pages: u64,
}

impl Gap {
    /// A painter with no page so far. It takes no memory.
    pub fn new() -> Gap
        ensures { ⟦<Gap as Painter>⟧.state result ≡ named_by_form Form.Gap 0 }
    {
        Gap { pages: 0 }
    }
}

impl Painter for Gap {
    ghost state = { λ p. named_by_form gap_form p.pages };

    fn name(&self) -> &str {
        "gap"
    }

    fn page(&mut self, alloc: Global, grid: &Grid, out: &mut Vec<u8>) -> Result<(), AllocError> {
        put_next_page(alloc, Form::Gap, &mut self.pages, grid, out)
    }

    fn trailer(&self, _alloc: Global, out: &mut Vec<u8>) -> Result<(), AllocError> {
        put_trailer(Form::Gap, self.pages, out)
    }
}

// Appends the page that follows so many pages of a form, and counts it. An `Err` leaves `pages` and `out` as they were.
fn put_next_page(
    alloc: Global,
    form: Form,
    pages: &mut u64,
    grid: &Grid,
    out: &mut Vec<u8>,
) -> Result<(), AllocError>
    ensures text { OnOk result (out.new.items ≡ out.old.items ++ page_text form (one_more pages.old) grid.now) }
    ensures next { OnOk result (pages.new ≡ one_more pages.old) }
    ensures kept { OnErr result (pages.new ≡ pages.old) }
    ensures kept_out { OnErr result (out.new.items ≡ out.old.items) }
{
    let number = pages.saturating_add(1);
    put_page(alloc, form, number, grid, out)?;
    *pages = number;
    Ok(())
}

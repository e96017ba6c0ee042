//! What a painter is.
ghost use Rattle.std.specs.Prelude.{◌≡◌, ◌++◌, OnOk, OnErr};
ghost use Rattle.sp_paint.specs.State.{PainterState, name_of, next_of};
ghost use Rattle.sp_paint.specs.Page.{page_of, trailer_of};

use sp_fock::Grid;
use std::alloc::{AllocError, Global};

/// Writes grids, page after page, and a last line after them. Its state is a name, a form and the number of its pages
/// so far. The texts go by the form, and the name is free.
pub trait Painter: Drop {
    ghost state: { Self → PainterState };

    /// The name by which it is chosen.
    fn name(&self) -> &str
        ensures { result.now ≡ name_of (state self.now) };

    /// Appends a page that shows the grid. An `Err` leaves the painter and `out` as they were.
    fn page(&mut self, alloc: Global, grid: &Grid, out: &mut Vec<u8>) -> Result<(), AllocError>
        ensures text { OnOk result (out.new.items ≡ out.old.items ++ page_of (state self.old) grid.now) }
        ensures next { OnOk result (state self.new ≡ next_of (state self.old) grid.now) }
        ensures kept { OnErr result (state self.new ≡ state self.old) }
        ensures kept_out { OnErr result (out.new.items ≡ out.old.items) };

    /// Appends what stands behind all pages. An `Err` leaves `out` as it was.
    fn trailer(&self, alloc: Global, out: &mut Vec<u8>) -> Result<(), AllocError>
        ensures text { OnOk result (out.new.items ≡ out.old.items ++ trailer_of (state self.now)) }
        ensures kept_out { OnErr result (out.new.items ≡ out.old.items) };
}

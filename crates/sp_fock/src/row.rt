// The cells of a line of a grid, from the first column to the last.
ghost use Rattle.std.specs.Iterator.{item_count, YieldsFirstBy};
ghost use Rattle.sp_fock.specs.Rows.{polynomial_of};

use sp_laurent::Laurent;
use std::marker::Model;

/// Goes over the cells of a line, those that are 0 too. It takes no memory.
#[derive(Drop)]
pub struct Row<'a> {
    // The cells that aren't 0 and are still to come, each behind its place.
    pub(crate) cells: &'a [(usize, Laurent)],
    pub(crate) place: usize,
    pub(crate) width: usize,
    pub(crate) zero: &'a Laurent,
}

impl<'a> Model for Row<'a> {
    ghost use Rattle.std.specs.Prelude.{◌-◌, List};
    ghost use Rattle.sp_defs.specs.Laurent.{Laurent};
    ghost use Rattle.sp_fock_law.specs.Sparse.{spread_from};
    ghost use Rattle.sp_fock.specs.Rows.{IsRow};

    ghost Value = { List Laurent };

    ghost view = { λ a. spread_from a.place (a.width - a.place) a.cells.now };

    ghost invariant = { λ a. IsRow a.place a.width a.cells.now a.zero.now };
}

impl<'a> Iterator for Row<'a> {
    type Item = &'a Laurent;

    ghost next_gives = { YieldsFirstBy polynomial_of (λ cells. cells) };

    ghost remaining = { item_count (λ cells. cells) };

    fn next(&mut self) -> Option<&'a Laurent> {
        if self.place >= self.width {
            return None;
        }
        let place = self.place;
        self.place += 1;
        match self.cells.split_first() {
            Some((cell, others)) if cell.0 == place => {
                self.cells = others;
                Some(&cell.1)
            }
            _ => Some(self.zero),
        }
    }
}

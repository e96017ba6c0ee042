// The painters of a session, and the chosen one.
ghost use Rattle.std.specs.Prelude.{◌≡◌, ◌<◌, ◌++◌, ◌≤◌, ◌-◌, false, length, flat_map, is_some, map, OnOk};
ghost use Rattle.sp_paint.specs.Page.{page_of, trailer_of};
ghost use Rattle.sp_paint.specs.State.{next_of};
ghost use Rattle.sp_session.specs.Easel.{EaselState, after_page, choose, first_chosen, has_none, page_by, page_text};
ghost use Rattle.sp_session.specs.Easel.{painters_after, place_of, trailers};

use sp_fock::Grid;
use sp_paint::{Painter, choose};
use std::alloc::{AllocError, Global};

/// Painters in order, with the place of the chosen one.
#[derive(Drop)]
pub(crate) struct Easel {
    chosen: usize,
    painters: Vec<Box<dyn Painter>>,
    ghost within: { chosen ≤ length painters.items - 1 },
}

/// What is known by plain data.
pub(crate) trait Remembers {
    ghost memory: { Self → EaselState };
}

impl Remembers for Easel {
    ghost use Rattle.std.specs.Prelude.{map};

    ghost memory = { λ s. record {
      chosen = s.chosen;
      painters = map (λ b. (Painter-box b).state b.value) s.painters.items;
    } };
}

impl Easel {
    /// The first painter is chosen.
    pub(crate) fn new(painters: Vec<Box<dyn Painter>>) -> Easel
        ensures { ⟦<Easel as Remembers>⟧.memory result ≡ first_chosen (map (λ b. state b) painters.items) }
    {
        Easel {
            chosen: 0,
            painters,
        }
    }

    /// Whether there is no painter.
    pub(crate) fn is_empty(&self) -> bool
        ensures { result ≡ has_none (⟦<Easel as Remembers>⟧.memory self.now) }
    {
        self.painters.is_empty()
    }

    /// Chooses the first painter with this name, and says whether there is one. Otherwise the choice stays.
    pub(crate) fn choose(&mut self, name: &[u8]) -> bool
        ensures answer { result ≡ is_some (place_of (⟦<Easel as Remembers>⟧.memory self.old) name.now) }
        ensures next { ⟦<Easel as Remembers>⟧.memory self.new ≡
            choose (⟦<Easel as Remembers>⟧.memory self.old) name.now }
    {
        match choose(&self.painters, name) {
            Some(place) => {
                self.chosen = place;
                true
            }
            None => false,
        }
    }

    /// Appends a page by the chosen painter. An `Err` leaves `out` unspecified.
    pub(crate) fn page(
        &mut self,
        alloc: Global,
        grid: &Grid,
        out: &mut Vec<u8>,
    ) -> Result<(), AllocError>
        requires { has_none (⟦<Easel as Remembers>⟧.memory self.old) ≡ false }
        ensures text { OnOk result (out.new.items ≡
            out.old.items ++ page_text (⟦<Easel as Remembers>⟧.memory self.old) grid.now) }
        ensures next { OnOk result (⟦<Easel as Remembers>⟧.memory self.new ≡
            after_page (⟦<Easel as Remembers>⟧.memory self.old) grid.now) }
    {
        let painter = &mut self.painters[self.chosen];
        paint(painter, alloc, grid, out)
    }

    /// Appends the trailers of all painters, in order. An `Err` leaves `out` unspecified.
    #[tactic(auto, unfolding(crate::specs::Easel::trailers))]
    pub(crate) fn close(&self, alloc: Global, out: &mut Vec<u8>) -> Result<(), AllocError>
        ensures { OnOk result (out.new.items ≡ out.old.items ++ trailers (⟦<Easel as Remembers>⟧.memory self.now)) }
    {
        put_trailers(&self.painters, alloc, out)
    }
}

// A page by one painter.
fn paint(
    painter: &mut Box<dyn Painter>,
    alloc: Global,
    grid: &Grid,
    out: &mut Vec<u8>,
) -> Result<(), AllocError>
    ensures text { OnOk result (out.new.items ≡ out.old.items ++ page_of (state painter.old) grid.now) }
    ensures next { OnOk result (state painter.new ≡ next_of (state painter.old) grid.now) }
{
    painter.page(alloc, grid, out)
}

fn put_trailers(
    painters: &[Box<dyn Painter>],
    alloc: Global,
    out: &mut Vec<u8>,
) -> Result<(), AllocError>
    ensures { OnOk result (out.new.items ≡
        out.old.items ++ flat_map trailer_of (map (λ b. state b) painters.now)) }
{
    for painter in painters {
        put_trailer(painter, alloc, out)?;
    }
    Ok(())
}

fn put_trailer(
    painter: &Box<dyn Painter>,
    alloc: Global,
    out: &mut Vec<u8>,
) -> Result<(), AllocError>
    ensures { OnOk result (out.new.items ≡ out.old.items ++ trailer_of (state painter.now)) }
{
    painter.trailer(alloc, out)
}

// Many threads, who make the rows of a degree and hold matrices against their Jantzen sums. A trait's method can start
// no threads by a handle that its type keeps, so the calls that do are closures of the caller's.
ghost use Rattle.std.specs.Prelude.{◌≡◌, ℕ, IfOk};
ghost use Rattle.sp_llt.specs.Filled.{IsFilled};
ghost use Rattle.sp_session.specs.Crew.{Compares, MayCompare};

use crate::fillers::Filler;
use sp_fock::Grid;
use sp_llt::{Ctx, Entry};
use sp_matrix::{Agreement, CompareFault};
use std::alloc::{AllocError, Global};
use std::marker::Model;
use std::sync::Arc;

/// Who does what a `Filler` does, while it is ready to.
pub(crate) trait Crew {
    ghost ready: { Self → Type 0 };

    /// The entries of all ranks, ascending.
    fn rows(&self, alloc: Global, ctx: &Ctx) -> Result<Vec<Arc<Entry>>, AllocError>
        requires { ready self.now }
        ensures { IfOk result (λ rows. IsFilled ctx.now rows.items) };

    /// How far a matrix agrees with the Jantzen sums of its lines.
    fn agreement(
        &self,
        alloc: Global,
        e: u8,
        grid: &Grid,
        limit: u128,
    ) -> Result<Agreement, CompareFault>
        requires ready { ready self.now }
        requires may { MayCompare e limit grid.now }
        ensures { Compares e limit grid.now result };
}

/// A crew that is two closures.
#[derive(Drop)]
pub(crate) struct Calls<F, C> {
    pub(crate) fill: F,
    pub(crate) compare: C,
}

impl<F, C> Crew for Calls<F, C>
where
    F: Fn(Global, &Ctx) -> Result<Vec<Arc<Entry>>, AllocError>,
    C: Fn(Global, u8, &Grid, u128) -> Result<Agreement, CompareFault>,
{
    ghost ready = { λ calls.
        ((alloc : _) (ctx : _) → F.pre calls.fill alloc ctx)
        × ((alloc : _) (ctx : _) (result : _) → F.post calls.fill alloc ctx result →
        IfOk result (λ rows. IsFilled ctx.now rows.items))
        × ((alloc : _) (e : ℕ) (grid : _) (limit : ℕ) → MayCompare e limit grid.now →
        C.pre calls.compare alloc e grid limit)
        × ((alloc : _) (e : ℕ) (grid : _) (limit : ℕ) (result : _) → C.post calls.compare alloc e grid limit result →
        Compares e limit grid.now result) };

    fn rows(&self, alloc: Global, ctx: &Ctx) -> Result<Vec<Arc<Entry>>, AllocError> {
        (self.fill)(alloc, ctx)
    }

    fn agreement(
        &self,
        alloc: Global,
        e: u8,
        grid: &Grid,
        limit: u128,
    ) -> Result<Agreement, CompareFault> {
        (self.compare)(alloc, e, grid, limit)
    }
}

/// A crew that is ready.
#[derive(Drop)]
pub(crate) struct Ready<W: Crew> {
    crew: W,
}

impl<W: Crew> Model for Ready<W> {
    ghost Value = { W };

    ghost view = { λ ready. ready.crew };

    ghost invariant = { λ ready. W.ready ready.crew };
}

impl<W: Crew> Ready<W> {
    pub(crate) fn new(crew: W) -> Ready<W>
        requires { W.ready crew }
    {
        Ready { crew }
    }
}

impl<W: Crew> Filler for Ready<W> {
    fn fill(&self, alloc: Global, ctx: &Ctx) -> Result<Vec<Arc<Entry>>, AllocError> {
        self.crew.rows(alloc, ctx)
    }

    fn compare(
        &self,
        alloc: Global,
        e: u8,
        grid: &Grid,
        limit: u128,
    ) -> Result<Agreement, CompareFault> {
        self.crew.agreement(alloc, e, grid, limit)
    }
}

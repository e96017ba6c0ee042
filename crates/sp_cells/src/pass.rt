ghost use Rattle.std.specs.Prelude.{◌≡◌, IfOk};
ghost use Rattle.std.specs.Arc.{arc_value};

use once_cell::race::Note;
use sp_core::Piece;
use std::alloc::{AllocError, Global};
use std::marker::Model;
use std::sync::Arc;

/// What a caller has learned of each cell.
#[derive(Drop)]
pub struct Pass<T: Piece> {
    pub(crate) notes: Vec<Note<Arc<T>>>,
}

impl<T: Piece> Model for Pass<T> {
    ghost use Rattle.sp_cells.specs.Known.{Known};
    ghost use Rattle.sp_cells.specs.Noted.{view_of};

    ghost Value = { Known T };

    ghost view = { λ p. view_of p.notes.items };
}

/// A piece that is ready to be shown.
#[derive(Drop)]
pub struct Parcel<T: Piece> {
    pub(crate) piece: Box<Arc<T>>,
}

impl<T: Piece> Model for Parcel<T> {
    ghost use Rattle.std.specs.Arc.{arc_value};

    ghost Value = { T };

    ghost view = { λ p. arc_value p.piece.value };
}

impl<T: Piece> Parcel<T> {
    /// Puts a piece into memory of its own, so that showing it takes none.
    pub fn pack(alloc: Global, piece: Arc<T>) -> Result<Parcel<T>, AllocError>
        ensures { IfOk result (λ p. p ≡ arc_value piece) }
    {
        Ok(Parcel {
            piece: Box::new(alloc, piece)?,
        })
    }

    pub(crate) fn into_box(self) -> Box<Arc<T>>
        ensures { arc_value result.value ≡ self }
    {
        let Parcel { piece } = self;
        piece
    }
}

ghost use Rattle.std.specs.Prelude.{◌≡◌, ◌<◌, ℕ, length, replicate, IfOk, MatchOption};
ghost use Rattle.std.specs.declared.option.Option.TheVariants.{None as Nothing, Some as Just};
ghost use Rattle.std.specs.Option.{option_copied};
ghost use Rattle.sp_cells.specs.Known.{IsOf, IsRow, Knows, Looks, known};

use crate::{Parcel, Pass, note};
use once_cell::race::OnceBox;
use sp_core::{Key, Piece};
use std::alloc::{AllocError, Global};
use std::marker::Model;
use std::sync::Arc;

/// One cell for each row of the table with this key.
#[derive(Drop)]
pub struct Cells<T: Piece> {
    key: Key,
    cells: Vec<OnceBox<Arc<T>>>,
}

impl<T: Piece> Model for Cells<T> {
    ghost use Rattle.std.specs.Prelude.{map};
    ghost use Rattle.once_cell.specs.Once.{cell_name};
    ghost use Rattle.sp_cells.specs.Known.{CellTable, cell_table};

    ghost Value = { CellTable };

    ghost view = { λ c. cell_table c.key (map (λ b. cell_name b) c.cells.items) };
}

/// What a call of `show` finds in the cell.
#[derive(Drop)]
pub enum Shown<'a, T> {
    /// The row, whoever showed it first.
    Row(&'a T),
    /// A piece with another key or number.
    Strange { there: &'a T },
}

// What was found, if it is the row with this key and number.
fn if_row<'a, T: Piece>(found: Option<&'a T>, key: Key, k: usize) -> Option<&'a T>
    ensures { MatchOption result
        ((x : T) → option_copied found.entry ≡ Just x → (T.key x ≡ key) × (T.number x ≡ k) → ⊥)
        (λ r. (option_copied found.entry ≡ Just r.now) × (T.key r.now ≡ key) × (T.number r.now ≡ k)) }
{
    match found {
        Some(piece) if piece.key() == key && piece.number() == k => Some(piece),
        _ => None,
    }
}

impl<T: Piece> Cells<T> {
    ghost use Rattle.sp_cells.specs.Showing.{IsShown, IsSorted, ShowsKnown};

    /// Cells that are not set.
    pub fn open(alloc: Global, key: Key, rows: usize) -> Result<Cells<T>, AllocError>
        ensures { IfOk result (λ c. (c.key ≡ key) × (length c.names ≡ rows)) }
    {
        let mut cells = Vec::with_capacity(alloc, rows)?;
        for _ in 0..rows {
            cells.push(OnceBox::new(alloc))?;
        }
        Ok(Cells { key, cells })
    }

    /// A pass of these cells that knows no row.
    pub fn pass(&self, alloc: Global) -> Result<Pass<T>, AllocError>
        ensures { IfOk result (λ p. p ≡ known self.now.names (replicate (length self.now.names) Nothing)) }
    {
        let mut notes = Vec::with_capacity(alloc, self.cells.len())?;
        for cell in &self.cells {
            notes.push(cell.note())?;
        }
        Ok(Pass { notes })
    }

    /// Row `k`, if it was shown: the pass knows it from then on.
    pub fn peek(&self, pass: &mut Pass<T>, k: usize) -> Option<&T>
        requires row { k < length self.now.names }
        requires of { IsOf self.now pass.old }
        ensures looks { Looks pass.old pass.new k }
        ensures row { MatchOption result
            ((x : T) → Knows pass.new k x → IsRow T.key T.number self.now k x → ⊥)
            (λ r. Knows pass.new k r.now × IsRow T.key T.number self.now k r.now) }
        // a pass that knows the row gets it
        ensures known { (x : T) → Knows pass.old k x → IsRow T.key T.number self.now k x →
            MatchOption result ⊥ (λ r. r.now ≡ x) }
    {
        let found = note::look(&self.cells[k], &mut pass.notes[k]);
        if_row(found, self.key, k)
    }

    /// Shows row `k`. Where another caller's piece is there first, that one is answered.
    pub fn show(&self, pass: &mut Pass<T>, k: usize, parcel: Parcel<T>) -> Shown<'_, T>
        requires row { k < length self.now.names }
        requires of { IsOf self.now pass.old }
        requires parcel { IsRow T.key T.number self.now k parcel }
        ensures looks { Looks pass.old pass.new k }
        ensures shown { IsShown T.key T.number self.now pass.new k result }
        // a pass that knows the row gets it
        ensures known { (x : T) → Knows pass.old k x → IsRow T.key T.number self.now k x → ShowsKnown x result }
    {
        let there = note::put(&self.cells[k], &mut pass.notes[k], parcel.into_box());
        Cells::sort(there, self.key, k)
    }

    fn sort<'a>(there: &'a T, key: Key, k: usize) -> Shown<'a, T>
        ensures { IsSorted T.key T.number key k there.now result }
    {
        if there.key() == key && there.number() == k {
            Shown::Row(there)
        } else {
            Shown::Strange { there }
        }
    }

    /// Two passes that know row `k` know the same piece. Both stay as they are.
    pub fn compare(&self, one: &mut Pass<T>, other: &mut Pass<T>, k: usize)
        requires row { k < length self.now.names }
        requires one { IsOf self.now one.old }
        requires other { IsOf self.now other.old }
        ensures one { one.new ≡ one.old }
        ensures other { other.new ≡ other.old }
        ensures same { (x y : T) → Knows one.old k x → Knows other.old k y → x ≡ y }
    {
        note::compare(&mut one.notes[k], &mut other.notes[k]);
    }
}

ghost use Rattle.std.specs.Prelude.{◌≡◌, IfOk};

use crate::{Cells, Parcel, Shown};
use sp_core::{Key, Piece};
use std::alloc::Global;
use std::sync::Arc;
use std::test::Fail;

#[derive(Drop, Debug)]
struct Plain {
    key: Key,
    number: usize,
    tag: u8,
}

impl Piece for Plain {
    ghost key = { λ p. p.key };

    ghost number = { λ p. p.number };

    fn key(&self) -> Key {
        self.key
    }

    fn number(&self) -> usize {
        self.number
    }
}

const KEY: Key = Key {
    e: 2,
    degree: 5,
    limit: 9,
};

fn parcel(alloc: Global, key: Key, number: usize, tag: u8) -> Result<Parcel<Plain>, Fail>
    ensures { IfOk result (λ p. (p.key ≡ key) × (p.number ≡ number)) }
{
    let piece = Plain { key, number, tag };
    Ok(Parcel::pack(alloc, Arc::new(alloc, piece)?)?)
}

#[test]
fn the_first_row_shown_is_kept(rt: HostRuntime) -> Result<(), Fail> {
    let alloc = rt.alloc();
    let cells = Cells::<Plain>::open(alloc, KEY, 3)?;
    let mut one = cells.pass(alloc)?;
    let mut two = cells.pass(alloc)?;
    assert!(rt; cells.peek(&mut one, 0).is_none());
    assert!(rt;
        matches!(
            cells.show(&mut one, 0, parcel(alloc, KEY, 0, 1)?),
            Shown::Row(_)
        )
    );
    match cells.show(&mut two, 0, parcel(alloc, KEY, 0, 2)?) {
        Shown::Row(row) => assert_eq!(rt; row.tag, 1),
        Shown::Strange { there: _there } => assert!(rt; false),
    }
    cells.compare(&mut one, &mut two, 0);
    Ok(())
}

#[test]
fn another_pass_finds_the_row(rt: HostRuntime) -> Result<(), Fail> {
    let alloc = rt.alloc();
    let cells = Cells::<Plain>::open(alloc, KEY, 3)?;
    let mut one = cells.pass(alloc)?;
    let mut two = cells.pass(alloc)?;
    assert!(rt; cells.peek(&mut two, 2).is_none());
    assert!(rt;
        matches!(
            cells.show(&mut one, 2, parcel(alloc, KEY, 2, 7)?),
            Shown::Row(_)
        )
    );
    assert_eq!(rt; cells.peek(&mut two, 2).map(|row| row.tag), Some(7));
    assert!(rt; cells.peek(&mut two, 1).is_none());
    Ok(())
}

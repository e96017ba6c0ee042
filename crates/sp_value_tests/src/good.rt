ghost use Rattle.std.specs.Prelude.{◌≡◌, ◌≤◌};

use sp_good::{cogood, good, mullineux, normal, path};
use sp_nodes::Node;
use sp_partition::{Partition, regular_of};
use std::process::Abort;
use std::test::Fail;

fn at(row: u8, column: u8) -> Node
    ensures { result ≡ record { row = row; column = column } }
{
    Node { row, column }
}

#[test]
fn nodes_of_two_rows(rt: HostRuntime) -> Result<(), Fail> {
    let p = Partition::from_parts(&[3, 2]).unwrap_or_default();
    assert_eq!(rt;
        normal(2, 0, &p).as_slice(),
        [at(1, 3), at(2, 2)].as_slice()
    );
    assert_eq!(rt; good(2, 0, &p), Some(at(2, 2)));
    assert_eq!(rt; cogood(2, 0, &p), Some(at(3, 1)));
    assert_eq!(rt; normal(2, 1, &p).len(), 0);
    assert_eq!(rt; good(2, 1, &p), None);
    assert_eq!(rt; cogood(2, 1, &p), Some(at(1, 4)));
    Ok(())
}

#[test]
fn path_and_image_of_one_row(rt: HostRuntime) -> Result<(), Fail> {
    let row = Partition::from_parts(&[4]).unwrap_or_default();
    assert!(rt; row.is_regular(3));
    assert_eq!(rt; path(3, &row).as_slice(), [0, 2, 1, 0].as_slice());
    let image = mullineux(3, &row).expect(&rt, "an image");
    assert_eq!(rt; image.parts(), [2, 2].as_slice());
    Ok(())
}

// The Mullineux map is an involution. (Ford and Kleshchev, 1997)
#[test]
fn image_of_the_image(rt: HostRuntime) -> Result<(), Fail> {
    for e in 2..6 {
        for degree in 0..13 {
            for mu in regular_of(rt.alloc(), e, degree)?.as_slice() {
                image_twice(&rt, e, mu)?;
            }
        }
    }
    Ok(())
}

fn image_twice(rt: &impl Abort, e: u8, mu: &Partition) -> Result<(), Fail>
    requires e_least { 2 ≤ e }
    requires e_most { e ≤ 64 }
{
    assert!(rt; mu.is_regular(e));
    let image = mullineux(e, mu).expect(rt, "an image");
    assert!(rt; image.is_regular(e));
    let twice = mullineux(e, &image).expect(rt, "an image");
    assert_eq!(rt; twice.parts(), mu.parts());
    Ok(())
}

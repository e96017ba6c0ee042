ghost use Rattle.std.specs.Prelude.{◌≡◌};

use sp_nodes::{
    Corner, Mark, Node, addable, content, diagram_text, hook, hooks_text, marks, nodes, removable,
    residue,
};
use sp_partition::Partition;
use std::test::Fail;

fn at(row: u8, column: u8) -> Node
    ensures { result ≡ record { row = row; column = column } }
{
    Node { row, column }
}

#[test]
fn corners_of_two_rows(rt: HostRuntime) -> Result<(), Fail> {
    let p = Partition::from_parts(&[3, 1]).unwrap_or_default();
    assert_eq!(rt; residue(2, at(2, 2)), 0);
    assert_eq!(rt; residue(3, at(3, 1)), 1);
    assert_eq!(rt;
        addable(2, 0, &p).as_slice(),
        [at(2, 2), at(3, 1)].as_slice()
    );
    assert_eq!(rt; removable(2, 0, &p).as_slice(), [at(1, 3)].as_slice());
    let found = marks(2, 0, &p);
    assert_eq!(rt; found.len(), 3);
    assert_eq!(rt;
        found[0],
        Mark {
            corner: Corner::Removable,
            node: at(1, 3)
        }
    );
    assert_eq!(rt;
        found[1],
        Mark {
            corner: Corner::Addable,
            node: at(2, 2)
        }
    );
    assert_eq!(rt;
        found[2],
        Mark {
            corner: Corner::Addable,
            node: at(3, 1)
        }
    );
    Ok(())
}

#[test]
fn contents_hooks_and_texts(rt: HostRuntime) -> Result<(), Fail> {
    let row = Partition::from_parts(&[4]).unwrap_or_default();
    assert_eq!(rt; content(3, &row).as_slice(), [2, 1, 1].as_slice());

    let p = Partition::from_parts(&[3, 1]).unwrap_or_default();
    let all = [at(1, 1), at(1, 2), at(1, 3), at(2, 1)];
    assert_eq!(rt; nodes(&p).as_slice(), all.as_slice());
    let parts = p.parts();
    assert!(rt; !parts.is_empty() && parts[0] > 0);
    assert_eq!(rt; hook(&p, at(1, 1)), 4);
    let mut text = Vec::new(rt.alloc());
    diagram_text(rt.alloc(), 3, &p, &mut text)?;
    hooks_text(rt.alloc(), &p, &mut text)?;
    diagram_text(rt.alloc(), 3, &Partition::empty(), &mut text)?;
    assert_eq!(rt; text.as_slice(), b"0 1 2\n2\n4 2 1\n1\n-\n".as_slice());
    Ok(())
}

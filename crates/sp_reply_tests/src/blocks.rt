// Worked answers on the blocks of a degree.
ghost use Rattle.std.specs.Prelude.{◌≤◌};

use sp_replies::put_blocks;
use std::alloc::Global;
use std::test::Fail;

// What is answered of degree n.
fn text_of(alloc: Global, e: u8, n: u8) -> Result<Vec<u8>, Fail>
    requires e_least { 2 ≤ e }
    requires e_most { e ≤ 64 }
    requires n_most { n ≤ 30 }
{
    let mut out = Vec::new(alloc);
    put_blocks(alloc, e, n, &mut out)?;
    Ok(out)
}

#[test]
fn blocks_descend_by_degree_then_lexicographically(rt: HostRuntime) -> Result<(), Fail> {
    assert_eq!(rt;
        text_of(rt.alloc(), 3, 4)?.as_slice(),
        b"3,1 weight 0 regular 1 of 1\n\
          2,1^2 weight 0 regular 1 of 1\n\
          1 weight 1 regular 2 of 3\n"
            .as_slice()
    );
    assert_eq!(rt;
        text_of(rt.alloc(), 4, 7)?.as_slice(),
        b"5,2 weight 0 regular 1 of 1\n\
          4,1^3 weight 0 regular 1 of 1\n\
          2^2,1^3 weight 0 regular 1 of 1\n\
          3 weight 1 regular 3 of 4\n\
          2,1 weight 1 regular 3 of 4\n\
          1^3 weight 1 regular 3 of 4\n"
            .as_slice()
    );
    Ok(())
}

#[test]
fn one_block_of_degree_nought(rt: HostRuntime) -> Result<(), Fail> {
    assert_eq!(rt;
        text_of(rt.alloc(), 2, 0)?.as_slice(),
        b"- weight 0 regular 1 of 1\n".as_slice()
    );
    Ok(())
}

// The empty core stands last, though its block has the most partitions.
#[test]
fn blocks_of_three_weights(rt: HostRuntime) -> Result<(), Fail> {
    assert_eq!(rt;
        text_of(rt.alloc(), 3, 9)?.as_slice(),
        b"5,3,1 weight 0 regular 1 of 1\n\
          3,2^2,1^2 weight 0 regular 1 of 1\n\
          4,2 weight 1 regular 2 of 3\n\
          2^2,1^2 weight 1 regular 2 of 3\n\
          - weight 3 regular 10 of 22\n"
            .as_slice()
    );
    Ok(())
}

#[test]
fn how_much_is_written_of_thirty(rt: HostRuntime) -> Result<(), Fail> {
    assert_eq!(rt; text_of(rt.alloc(), 11, 30)?.len(), 53132);
    Ok(())
}

// Answers on restriction, products, blocks and inverses.
use crate::sessions::{Case, gives, holds, plain};
use sp_session::Status;
use std::test::Fail;

#[test]
fn restrictions_are_answered(rt: HostRuntime) -> Result<(), Fail> {
    let cases = [
        (
            "restrict 2 0 3,1^2\nrestrict 2 0 -\n",
            "[3,1] + [2,1^2]\n0\n",
        ),
        (
            "commutator 2 0 0 3,1^2\ncommutator 2 0 1 3,1^2\ncommutator 2 1 1 3,1^2\n",
            "-[3,1^2]\n0\n(v^-1+v)[3,1^2]\n",
        ),
        ("branch 2 0 5\n", "[4] + v[3,1] + v[2,1^2] + v^2[1^4]\n"),
        (
            "restrict 2 2 1\ncommutator 2 1 2 1\nbranch 2 0 1^2\n",
            "error 8 residue not below e\nerror 8 residue not below e\nerror 7 not e-regular\n",
        ),
    ];
    for (input, output) in cases {
        assert!(rt; gives(rt.alloc(), input, output)?, "at {input}");
    }
    Ok(())
}

#[test]
fn products_are_answered(rt: HostRuntime) -> Result<(), Fail> {
    let cases = [
        (
            "product 2,1 2,1\nproduct - 3\nproduct 20 11\n",
            "[4,2] + [4,1^2] + [3^2] + 2[3,2,1] + [3,1^3] + [2^3] + [2^2,1^2]\n[3]\n\
             error 6 degree past 30\n",
        ),
        (
            "fillings 2,1 2,1 3,2,1\nfillings 1 1 3\n",
            "2,1 < 3,2 < 3,2,1\n2,1 < 3,1^2 < 3,2,1\n-\n",
        ),
    ];
    for (input, output) in cases {
        assert!(rt; gives(rt.alloc(), input, output)?, "at {input}");
    }
    Ok(())
}

#[test]
fn blocks_and_inverses_are_answered(rt: HostRuntime) -> Result<(), Fail> {
    let cases = [
        (
            "blocks 3 4\nblocks 2 0\n",
            "3,1 weight 0 regular 1 of 1\n2,1^2 weight 0 regular 1 of 1\n1 weight 1 regular 2 of 3\n\
             - weight 0 regular 1 of 1\n",
        ),
        (
            "inverse 2 4\nsimple 2 3,1\ncartan 2 4\n",
            "columns 4 3,1\n4: 1 .\n3,1: -v 1\n-[4] + [3,1]\ncolumns 4 3,1\n4: 4 2\n3,1: 2 3\n",
        ),
        (
            "painter gap\ninverse 2 4\ncartan 2 4\n",
            "painter gap\nm1 := [[1,0],[-v,1]];\nm2 := [[4,2],[2,3]];\n# matrices 2\n",
        ),
        ("simple 2 2^2\n", "error 7 not e-regular\n"),
    ];
    for (input, output) in cases {
        assert!(rt; gives(rt.alloc(), input, output)?, "at {input}");
    }
    Ok(())
}

#[test]
fn they_are_refused_past_the_limit(rt: HostRuntime) -> Result<(), Fail> {
    let cases: [(&'static [&'static str], &'static str, &'static str); 4] = [
        (
            &["--limit", "1"],
            "commutator 2 1 1 3,1^2\nbranch 2 1 2\n",
            "error 9 too large\nerror 9 too large\n",
        ),
        (&["--limit", "2"], "branch 2 0 5\n", "error 9 too large\n"),
        (
            &["--limit", "3"],
            "cartan 2 4\ninverse 3 6\nsimple 3 6\n",
            "error 9 too large at column 4\nerror 9 too large at column 6\nerror 9 too large at column 6\n",
        ),
        (
            &["--limit", "2"],
            "painter gap\ncartan 2 4\ninverse 2 5\ncartan 2 5\ninverse 2 3\n",
            "painter gap\nerror 9 too large at column 4\nerror 9 too large at column 5\n\
             error 9 too large at column 5\nm1 := [[1,0],[0,1]];\n# matrices 1\n",
        ),
    ];
    for (words, input, output) in cases {
        let case = Case {
            words,
            ..plain(input, Status::Done, output)
        };
        assert!(rt; holds(rt.alloc(), &case)?, "at {input}");
    }
    Ok(())
}

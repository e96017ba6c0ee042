// Which labels the commands take and tell.
use crate::sessions::{Case, gives, holds, plain};
use sp_session::Status;
use std::test::Fail;

#[test]
fn restricted_labels_are_told_once_they_are_chosen(rt: HostRuntime) -> Result<(), Fail> {
    let cases = [
        (
            "row 2 5\nconvention restricted\nrow 2 1^5\nrow 2 5\n",
            "[5] + v[3,1^2] + v^2[1^5]\nconvention restricted\nv^2[5] + v[3,1^2] + [1^5]\n\
             error 7 not e-restricted\n",
        ),
        (
            "convention\t restricted\nladder 2 1^5\nladder 2 5\n",
            "convention restricted\nv^2[5] + v^2[3,2] + 2v[3,1^2] + [2^2,1] + [1^5]\n\
             error 7 not e-restricted\n",
        ),
        (
            "convention restricted\ncrystal 2 3\ndecomposition 2 3\ndims 2 3\n",
            "convention restricted\ncolumns 2,1 1^3\n3: . v\n2,1: 1 .\n1^3: . 1\n\
             columns 2,1 1^3\n3: . 1\n2,1: 1 .\n1^3: . 1\n2,1 2 2\n1^3 1 1\n",
        ),
        (
            "convention restricted\nblock 3 1 1\nblock 3 2 1\nblock 3 1^2 1\nblock 3 3 1\n",
            "convention restricted\ncolumns 2^2 1^4\n4: 1 .\n2^2: 1 1\n1^4: . 1\n\
             columns 2^2,1 2,1^3\n5: 1 .\n2^2,1: 1 1\n2,1^3: . 1\n\
             columns 3,2 1^5\n4,1: 1 .\n3,2: 1 1\n1^5: . 1\nerror 18 not a core\n",
        ),
        (
            "convention restricted\njantzen 3 3\njantzen 3 1^3\nschaper 2 5\n",
            "convention restricted\n[2,1] - [1^3]\n0\nagree 7 of 7\n",
        ),
    ];
    for (input, output) in cases {
        assert!(rt; gives(rt.alloc(), input, output)?, "at {input}");
    }
    Ok(())
}

#[test]
fn refusals_name_restricted_labels(rt: HostRuntime) -> Result<(), Fail> {
    let cases: [(&'static [&'static str], &'static str, &'static str); 4] = [
        (
            &["--limit", "2"],
            "convention restricted\ncrystal 2 5\nblock 2 1 2\nschaper 2 5\nrow 2 1^5\n",
            "convention restricted\nerror 9 too large at column 1^5\nerror 9 too large at column 1^5\n\
             error 9 too large at column 1^5\nerror 9 too large\n",
        ),
        (
            &["--limit", "4"],
            "convention restricted\ndims 2 5\ncertificate 2 7\n",
            "convention restricted\nerror 9 too large at column 2^2,1\nerror 9 too large at column 7\n",
        ),
        (
            &["--limit", "5"],
            "crystal 3 10\nconvention restricted\ncrystal 3 10\n",
            "error 9 too large at column 9,1\nconvention restricted\nerror 9 too large at column 2,1^8\n",
        ),
        // Where there are more pages, each counts once.
        (
            &["--limit", "2"],
            "convention restricted\npainter gap\ncrystal 2 5\ncrystal 2 3\n",
            "convention restricted\npainter gap\nerror 9 too large at column 1^5\nm1 := [[0,v],[1,0],[0,1]];\n\
             # matrices 1\n",
        ),
    ];
    for (words, input, output) in cases {
        let case = Case {
            words,
            ..plain(input, Status::Done, output)
        };
        assert!(rt; holds(rt.alloc(), &case)?, "at {input}");
    }
    Ok(())
}

#[test]
fn a_refused_line_keeps_the_convention(rt: HostRuntime) -> Result<(), Fail> {
    let cases = [
        (
            "convention dual\ncrystal 2 3\n",
            "error 19 unknown convention\ncolumns 3 2,1\n3: 1 .\n2,1: . 1\n1^3: v .\n",
        ),
        (
            "convention restricted\nconvention dual\nconvention\nfrob\nrow 2 5\ncrystal 2 3\n",
            "convention restricted\nerror 19 unknown convention\nerror 2 wrong number of words\n\
             error 1 unknown command\nerror 7 not e-restricted\ncolumns 2,1 1^3\n3: . v\n2,1: 1 .\n1^3: . 1\n",
        ),
        (
            "convention restricted\nconvention regular\nrow 2 5\n",
            "convention restricted\nconvention regular\n[5] + v[3,1^2] + v^2[1^5]\n",
        ),
    ];
    for (input, output) in cases {
        assert!(rt; gives(rt.alloc(), input, output)?, "at {input}");
    }
    Ok(())
}

#[test]
fn other_commands_have_one_answer_in_both_conventions(rt: HostRuntime) -> Result<(), Fail> {
    let input =
        "convention restricted\nmullineux 3 4\npath 3 4\nladders 2 3,2\ngood 5 -\ninverse 2 4\ncartan 2 4\n\
                 simple 2 3,1\nbranch 2 0 5\nconjugate 3,1\ndim 3,1\npath 2 1^2\n";
    let output =
        "convention restricted\n2^2\n0 2 1 0\n1:0:1 2:1:2 3:0:2\n0 normal - good - cogood (1,1)\n\
                  columns 4 3,1\n4: 1 .\n3,1: -v 1\ncolumns 4 3,1\n4: 4 2\n3,1: 2 3\n-[4] + [3,1]\n\
                  [4] + v[3,1] + v[2,1^2] + v^2[1^4]\n2,1^2\n3\nerror 7 not e-regular\n";
    assert!(rt; gives(rt.alloc(), input, output)?);
    Ok(())
}

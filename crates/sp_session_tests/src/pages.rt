ghost use Rattle.std.specs.Prelude.{codes};
ghost use Rattle.sp_paint.specs.declared.form.Form.TheVariants.{Gap as gap_form};

use crate::sessions::{Case, gives, holds, plain};
use sp_base::{MemSink, MemSource};
use sp_fock::Grid;
use sp_paint::{Form, Painter, Plain, Tex, put_page, put_trailer};
use sp_session::{Status, run_alone};
use std::alloc::{AllocError, Global};
use std::test::Fail;

#[test]
fn matrices_are_shown(rt: HostRuntime) -> Result<(), Fail> {
    let cases = [
        (
            "crystal 2 5\n",
            "columns 5 4,1 3,2\n5: 1 . .\n4,1: . 1 .\n3,2: . . 1\n3,1^2: v . v\n2^2,1: . . v^2\n2,1^3: . v .\n\
             1^5: v^2 . .\n",
        ),
        (
            "crystal 3 4\nblock 3 1 1\n",
            "columns 4 3,1 2^2 2,1^2\n4: 1 . . .\n3,1: . 1 . .\n2^2: v . 1 .\n2,1^2: . . . 1\n1^4: . . v .\n\
             columns 4 2^2\n4: 1 .\n2^2: 1 1\n1^4: . 1\n",
        ),
        ("crystal 2 0\n", "columns -\n-: 1\n"),
        (
            "decomposition 9 4\n",
            "columns 4 3,1 2^2 2,1^2 1^4\n4: 1 . . . .\n3,1: . 1 . . .\n2^2: . . 1 . .\n2,1^2: . . . 1 .\n\
             1^4: . . . . 1\n",
        ),
        ("block 2 1 0\n", "columns 1\n1: 1\n"),
        (
            "block 3 3 1\nblock 3 3 7\n",
            "error 18 not a core\nerror 18 not a core\n",
        ),
        (
            "block 3 1 10\nblock 2 1 18446744073709551616\n",
            "error 18 degree past 30\nerror 18 degree past 30\n",
        ),
    ];
    for (input, output) in cases {
        assert!(rt; gives(rt.alloc(), input, output)?, "at {input}");
    }
    Ok(())
}

#[test]
fn modules_are_answered(rt: HostRuntime) -> Result<(), Fail> {
    let cases = [
        (
            "jantzen 3 1^3\njantzen 2 3,1^2\njantzen 2 4\n",
            "-[3] + [2,1]\n[5] + [3,2]\n0\n",
        ),
        ("dim 3,1\ndim -\n", "3\n1\n"),
        ("dims 2 5\n", "5 1 1\n4,1 4 4\n3,2 5 5\n"),
        ("schaper 2 5\nschaper 3 4\n", "agree 7 of 7\nagree 5 of 5\n"),
        (
            "# degree 4 at e = 2\ncore 2 4\ngood 2 4\ndecomposition 2 4\ndims 2 4\nschaper 2 4\n",
            "core - weight 2 quotient -|2\n0 normal - good - cogood (1,5)\n\
             1 normal (1,4) good (1,4) cogood (2,1)\ncolumns 4 3,1\n4: 1 .\n3,1: 1 1\n2^2: . 1\n2,1^2: 1 1\n\
             1^4: 1 .\n4 1 1\n3,1 3 2\nagree 5 of 5\n",
        ),
    ];
    for (input, output) in cases {
        assert!(rt; gives(rt.alloc(), input, output)?, "at {input}");
    }
    Ok(())
}

#[test]
fn matrices_are_refused_past_the_limit(rt: HostRuntime) -> Result<(), Fail> {
    let cases: [(&'static [&'static str], &'static str, &'static str); 6] = [
        (
            &["--limit", "2"],
            "crystal 2 5\ndecomposition 2 5\nblock 2 1 2\ndims 2 5\nschaper 2 5\n",
            "error 9 too large at column 5\nerror 9 too large at column 5\nerror 9 too large at column 5\n\
             error 9 too large at column 5\nerror 9 too large at column 5\n",
        ),
        (
            &["--limit", "4"],
            "dims 2 5\n",
            "error 9 too large at column 3,2\n",
        ),
        (
            &["--limit", "1"],
            "schaper 2 4\nblock 2 2,1 1\n",
            "error 9 too large\ncolumns 4,1\n4,1: 1\n2,1^3: 1\n",
        ),
        (&["--limit", "3"], "schaper 2 6\n", "error 9 too large\n"),
        (
            &["--limit", "5"],
            "crystal 3 10\n",
            "error 9 too large at column 9,1\n",
        ),
        // A trailer has only the pages that were painted.
        (
            &["--limit", "2"],
            "painter gap\ncrystal 2 5\ncrystal 2 3\n",
            "painter gap\nerror 9 too large at column 5\nm1 := [[1,0],[0,1],[v,0]];\n# matrices 1\n",
        ),
    ];
    for (words, input, output) in cases {
        let case = Case {
            words,
            ..plain(input, Status::Done, output)
        };
        assert!(rt; holds(rt.alloc(), &case)?, "at {input}");
    }
    Ok(())
}

#[test]
fn painters_are_chosen_by_name(rt: HostRuntime) -> Result<(), Fail> {
    let cases = [
        (
            "painter tex\ncrystal 2 0\npainter pdf\n",
            "painter tex\n% table 1\n\\begin{tabular}{l|c}\n & $-$ \\\\\n$-$ & $1$ \\\\\n\\end{tabular}\n\
             error 14 unknown painter\n% tables 1\n",
        ),
        (
            "painter gap\ncrystal 2 3\n",
            "painter gap\nm1 := [[1,0],[0,1],[v,0]];\n# matrices 1\n",
        ),
        // An unknown name leaves the choice, and each painter counts its own pages.
        (
            "painter gap\npainter pdf\ncrystal 2 0\npainter tex\ncrystal 2 0\npainter gap\ncrystal 2 0\n",
            "painter gap\nerror 14 unknown painter\nm1 := [[1]];\npainter tex\n% table 1\n\
             \\begin{tabular}{l|c}\n & $-$ \\\\\n$-$ & $1$ \\\\\n\\end{tabular}\npainter gap\nm2 := [[1]];\n\
             % tables 1\n# matrices 2\n",
        ),
    ];
    for (input, output) in cases {
        assert!(rt; gives(rt.alloc(), input, output)?, "at {input}");
    }
    Ok(())
}

// A painter of another maker: lists of lists under a name of its own.
#[derive(Drop)]
struct Slides {
    pages: u64,
}

impl Painter for Slides {
    ghost state = { λ p. record { name = codes "slides"; form = gap_form; pages = p.pages } };

    fn name(&self) -> &str {
        "slides"
    }

    fn page(&mut self, alloc: Global, grid: &Grid, out: &mut Vec<u8>) -> Result<(), AllocError> {
        let pages = self.pages.saturating_add(1);
        put_page(alloc, Form::Gap, pages, grid, out)?;
        self.pages = pages;
        Ok(())
    }

    fn trailer(&self, _alloc: Global, out: &mut Vec<u8>) -> Result<(), AllocError> {
        put_trailer(Form::Gap, self.pages, out)
    }
}

/// Whether these lines are answered so by a run with these painters.
fn paints(
    alloc: Global,
    painters: Vec<Box<dyn Painter>>,
    input: &str,
    output: &str,
) -> Result<bool, AllocError> {
    let mut bytes = Vec::new(alloc);
    bytes.extend_from_slice(input.as_bytes())?;
    let mut source = MemSource::new(bytes, 14, Vec::new(alloc));
    let mut sink = MemSink::new(alloc, 1_000, 7, Vec::new(alloc))?;
    let status = run_alone(alloc, &[], &mut source, &mut sink, painters);
    Ok(status == Status::Done && sink.bytes() == output.as_bytes())
}

#[test]
fn painters_of_other_makers_paint(rt: HostRuntime) -> Result<(), Fail> {
    let alloc = rt.alloc();
    let mut painters: Vec<Box<dyn Painter>> = Vec::new(alloc);
    painters.push(Box::new(alloc, Slides { pages: 4 })?)?;
    painters.push(Box::new(alloc, Plain::new())?)?;
    painters.push(Box::new(alloc, Slides { pages: 0 })?)?;
    painters.push(Box::new(alloc, Tex::new())?)?;
    let input =
        "crystal 2 0\npainter plain\ncrystal 2 0\npainter slides\ncrystal 2 0\npainter gap\n";
    let output = "m5 := [[1]];\npainter plain\ncolumns -\n-: 1\npainter slides\nm6 := [[1]];\n\
                  error 14 unknown painter\n# matrices 6\n";
    assert!(rt; paints(alloc, painters, input, output)?);
    Ok(())
}

#[test]
fn without_painters_no_page_is_shown(rt: HostRuntime) -> Result<(), Fail> {
    let alloc = rt.alloc();
    let input = "crystal 2 0\ndecomposition 2 3\nblock 3 3 1\npainter plain\ndims 2 5\n";
    let output = "error 14 unknown painter\nerror 14 unknown painter\nerror 14 unknown painter\n\
                  error 14 unknown painter\n5 1 1\n4,1 4 4\n3,2 5 5\n";
    assert!(rt; paints(alloc, Vec::new(alloc), input, output)?);
    Ok(())
}

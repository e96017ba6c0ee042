// Painters are dropped once, however a run ends.
ghost use Rattle.std.specs.Prelude.{codes};
ghost use Rattle.sp_paint.specs.declared.form.Form.TheVariants.{Plain as plain_form};

use crate::sessions::{Case, plain};
use sp_base::{MemSink, MemSource};
use sp_fock::Grid;
use sp_paint::{Form, Painter, put_page, put_trailer};
use sp_pool::Still;
use sp_session::{Status, run, run_alone};
use std::alloc::{AllocError, Global};
use std::sync::atomic::{AtomicU64, Ordering};
use std::sync::{Arc, Wait};
use std::test::Fail;
use std::thread::Threads;
use std::vec;

// Counts its drops, and finds no memory for a second page.
struct Watched {
    pages: u64,
    drops: Arc<AtomicU64>,
}

impl Watched {
    fn new(drops: &Arc<AtomicU64>) -> Result<Watched, AllocError> {
        Ok(Watched {
            pages: 0,
            drops: Arc::try_clone(drops)?,
        })
    }
}

impl Drop for Watched {
    fn drop(self) {
        let Watched { pages: _, drops } = self;
        drops.fetch_add(1, Ordering::SeqCst);
    }
}

impl Painter for Watched {
    ghost state = { λ p. record { name = codes "watched"; form = plain_form; pages = p.pages } };

    fn name(&self) -> &str {
        "watched"
    }

    fn page(&mut self, alloc: Global, grid: &Grid, out: &mut Vec<u8>) -> Result<(), AllocError> {
        if self.pages > 0 {
            return Err(AllocError);
        }
        put_page(alloc, Form::Plain, 1, grid, out)?;
        self.pages = 1;
        Ok(())
    }

    fn trailer(&self, _alloc: Global, out: &mut Vec<u8>) -> Result<(), AllocError> {
        put_trailer(Form::Plain, self.pages, out)
    }
}

/// One case for each status but that of an input that is too long.
fn cases() -> [Case; 5] {
    [
        plain("crystal 2 0\n", Status::Done, "columns -\n-: 1\n"),
        Case {
            words: &["frob"],
            ..plain("crystal 2 0\n", Status::Usage, "")
        },
        Case {
            failing_read: 2,
            ..plain("crystal 2 0\n", Status::ReadFault, "columns -\n-: 1\n")
        },
        Case {
            failing_write: 1,
            ..plain("crystal 2 0\n", Status::WriteFault, "")
        },
        // The second page finds no memory, and what follows has no reply.
        plain(
            "crystal 2 0\nconjugate 2\ncrystal 2 0\nconjugate 2\n",
            Status::OutOfMemory,
            "columns -\n-: 1\n1^2\n",
        ),
    ]
}

fn words_of(alloc: Global, case: &Case) -> Result<Vec<String>, AllocError> {
    let mut words = Vec::new(alloc);
    for word in case.words {
        words.push(String::from_str(alloc, word)?)?;
    }
    Ok(words)
}

fn source_of(alloc: Global, case: &Case) -> Result<MemSource, AllocError> {
    let mut input = Vec::new(alloc);
    input.extend_from_slice(case.input.as_bytes())?;
    Ok(MemSource::new(input, 14, vec![in alloc; case.failing_read]?))
}

/// A line with one byte more than are answered.
fn past_the_limit(alloc: Global) -> Result<MemSource, AllocError> {
    let mut input = Vec::new(alloc);
    input.resize(16_777_217, b' ')?;
    Ok(MemSource::new(input, 1_000_000, Vec::new(alloc)))
}

/// How often each of two painters was dropped.
#[derive(Drop)]
struct Drops {
    first: Arc<AtomicU64>,
    second: Arc<AtomicU64>,
}

impl Drops {
    fn new(alloc: Global) -> Result<Drops, AllocError> {
        Ok(Drops {
            first: Arc::new(alloc, AtomicU64::new(0))?,
            second: Arc::new(alloc, AtomicU64::new(0))?,
        })
    }

    fn are_one_each(&self) -> bool {
        self.first.load(Ordering::SeqCst) == 1 && self.second.load(Ordering::SeqCst) == 1
    }
}

/// Whether a run on one thread ends as the case says, and both its painters were dropped once when it returned.
fn alone_holds(alloc: Global, case: &Case, mut source: MemSource) -> Result<bool, AllocError> {
    let drops = Drops::new(alloc)?;
    let mut painters: Vec<Box<dyn Painter>> = Vec::new(alloc);
    painters.push(Box::new(alloc, Watched::new(&drops.first)?)?)?;
    painters.push(Box::new(alloc, Watched::new(&drops.second)?)?)?;
    let words = words_of(alloc, case)?;
    let mut sink = MemSink::new(alloc, 1_000, 7, vec![in alloc; case.failing_write]?)?;
    let status = run_alone(alloc, &words, &mut source, &mut sink, painters);
    let once = drops.are_one_each();
    Ok(once && status == case.status && sink.bytes() == case.output.as_bytes())
}

/// Whether a run with many workers does.
fn many_holds<R: Threads + Wait + Sync>(
    rt: &R,
    alloc: Global,
    case: &Case,
    mut source: MemSource,
) -> Result<bool, AllocError> {
    let drops = Drops::new(alloc)?;
    let mut painters: Vec<Box<dyn Painter>> = Vec::new(alloc);
    painters.push(Box::new(alloc, Watched::new(&drops.first)?)?)?;
    painters.push(Box::new(alloc, Watched::new(&drops.second)?)?)?;
    let words = words_of(alloc, case)?;
    let mut sink = MemSink::new(alloc, 1_000, 7, vec![in alloc; case.failing_write]?)?;
    let status = run(rt, alloc, &words, &mut source, &mut sink, painters, &Still);
    let once = drops.are_one_each();
    Ok(once && status == case.status && sink.bytes() == case.output.as_bytes())
}

#[test]
fn painters_are_dropped_once_by_a_run_on_one_thread(rt: HostRuntime) -> Result<(), Fail> {
    let alloc = rt.alloc();
    let cases = cases();
    for case in &cases {
        let source = source_of(alloc, case)?;
        assert!(rt; alone_holds(alloc, case, source)?, "at {}", case.output);
    }
    let source = past_the_limit(alloc)?;
    assert!(rt; alone_holds(alloc, &plain("", Status::InputTooLong, ""), source)?);
    Ok(())
}

#[test]
fn painters_are_dropped_once_by_a_run_with_many_workers(rt: HostRuntime) -> Result<(), Fail> {
    let alloc = rt.alloc();
    let cases = cases();
    for case in &cases {
        let source = source_of(alloc, case)?;
        assert!(rt; many_holds(&rt, alloc, case, source)?, "at {}", case.output);
    }
    let source = past_the_limit(alloc)?;
    assert!(rt; many_holds(&rt, alloc, &plain("", Status::InputTooLong, ""), source)?);
    Ok(())
}

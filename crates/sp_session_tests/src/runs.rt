// Runs with rows by many workers.
use sp_base::{MemSink, MemSource};
use sp_paint::{Gap, Painter, Plain, Tex};
use sp_pool::{Gate, Still};
use sp_session::{Status, run};
use std::alloc::{AllocError, Global};
use std::sync::Wait;
use std::sync::atomic::{AtomicU64, Ordering};
use std::test::Fail;
use std::thread::Threads;

/// How a run with the painters plain, tex and gap ends, and what it writes.
fn run_many<R: Threads + Wait + Sync, G: Gate>(
    rt: &R,
    alloc: Global,
    words: &[&str],
    input: &str,
    gate: &G,
) -> Result<(Status, Vec<u8>), AllocError> {
    let mut list = Vec::new(alloc);
    for word in words {
        list.push(String::from_str(alloc, word)?)?;
    }
    let mut bytes = Vec::new(alloc);
    bytes.extend_from_slice(input.as_bytes())?;
    let mut source = MemSource::new(bytes, 14, Vec::new(alloc));
    let mut sink = MemSink::new(alloc, 1_000, 7, Vec::new(alloc))?;
    let mut painters: Vec<Box<dyn Painter>> = Vec::new(alloc);
    painters.push(Box::new(alloc, Plain::new())?)?;
    painters.push(Box::new(alloc, Tex::new())?)?;
    painters.push(Box::new(alloc, Gap::new())?)?;
    let status = run(rt, alloc, &list, &mut source, &mut sink, painters, gate);
    let mut written = Vec::new(alloc);
    written.extend_from_slice(sink.bytes())?;
    Ok((status, written))
}

/// Whether a run with these words is done, and writes this.
pub(crate) fn writes<R: Threads + Wait + Sync, G: Gate>(
    rt: &R,
    alloc: Global,
    words: &[&str],
    input: &str,
    output: &[u8],
    gate: &G,
) -> Result<bool, AllocError> {
    let (status, written) = run_many(rt, alloc, words, input, gate)?;
    Ok(status == Status::Done && written.as_slice() == output)
}

/// The matrix of degree 5 at e = 2.
fn degree_five() -> &'static [u8] {
    b"columns 5 4,1 3,2\n5: 1 . .\n4,1: . 1 .\n3,2: . . 1\n3,1^2: v . v\n2^2,1: . . v^2\n2,1^3: . v .\n1^5: v^2 . .\n"
}

#[test]
fn one_and_many_workers_answer_the_same(rt: HostRuntime) -> Result<(), Fail> {
    let alloc = rt.alloc();
    let counts: [&[&str]; 5] = [
        &[],
        &["--workers", "1"],
        &["--workers", "8"],
        &["--workers=16"],
        &["--limit", "3", "--workers", "2"],
    ];
    for words in counts {
        assert!(rt; writes(&rt, alloc, words, "crystal 2 5\n", degree_five(), &Still)?);
    }
    Ok(())
}

#[test]
fn many_workers_answer_all_that_matrices_are_for(rt: HostRuntime) -> Result<(), Fail> {
    let alloc = rt.alloc();
    let input = "block 3 1 1\ndims 2 5\nschaper 2 5\nrow 2 5\npainter gap\ncrystal 2 3";
    let output =
        b"columns 4 2^2\n4: 1 .\n2^2: 1 1\n1^4: . 1\n5 1 1\n4,1 4 4\n3,2 5 5\nagree 7 of 7\n\
                   [5] + v[3,1^2] + v^2[1^5]\npainter gap\nm1 := [[1,0],[0,1],[v,0]];\n# matrices 1\n";
    assert!(rt;
        writes(
            &rt,
            alloc,
            &["--workers", "3"],
            input,
            output.as_slice(),
            &Still
        )?
    );
    let refused = b"error 9 too large at column 5\n";
    let words: &[&str] = &["--limit", "2", "--workers", "2"];
    assert!(rt;
        writes(
            &rt,
            alloc,
            words,
            "crystal 2 5\n",
            refused.as_slice(),
            &Still
        )?
    );
    Ok(())
}

#[test]
fn many_workers_sum_up_the_same(rt: HostRuntime) -> Result<(), Fail> {
    let alloc = rt.alloc();
    let output = b"generated 0 lines 200 errors 0 bytes 196112 sum 9901765\n";
    let counts: [&[&str]; 2] = [
        &["--generate", "0", "--workers", "1"],
        &["--workers=8", "--generate=0"],
    ];
    for words in counts {
        assert!(rt; writes(&rt, alloc, words, "frob\n", output.as_slice(), &Still)?);
    }
    Ok(())
}

#[test]
fn other_words_are_refused_where_there_are_many_workers(rt: HostRuntime) -> Result<(), Fail> {
    let alloc = rt.alloc();
    let cases: [&[&str]; 10] = [
        &["--workers", "0"],
        &["--workers", "17"],
        &["--workers", "04"],
        &["--workers", "2", "--workers=2"],
        &["--workers"],
        &["--workers="],
        &["--help"],
        &["--"],
        &["--workers", "--"],
        &["frob"],
    ];
    for words in cases {
        let (status, written) = run_many(&rt, alloc, words, "crystal 2 5\n", &Still)?;
        assert!(rt; status == Status::Usage && written.is_empty());
    }
    Ok(())
}

const CLAIM_TURNS: u64 = 1_000_000_000;

const HOLD_TURNS: u64 = 100_000_000;

// Waits until the number is reached, and gives up after the turns.
fn reaches(count: &AtomicU64, least: u64, turns: u64) -> bool {
    for _ in 0..turns {
        if count.load(Ordering::SeqCst) >= least {
            return true;
        }
    }
    false
}

// Holds the first publish until a second worker has claimed.
#[derive(Drop)]
struct HoldsForASecond {
    claims: AtomicU64,
    publishes: AtomicU64,
    seen: AtomicU64,
}

impl Gate for HoldsForASecond {
    fn at_claim(&self, _worker: usize, _row: usize) {
        self.claims.fetch_add(1, Ordering::SeqCst);
    }

    fn at_publish(&self, _worker: usize, _row: usize) {
        let first = self.publishes.fetch_add(1, Ordering::SeqCst) == 0;
        if first && reaches(&self.claims, 2, CLAIM_TURNS) {
            self.seen.store(1, Ordering::SeqCst);
        }
    }
}

#[test]
fn a_second_worker_claims_before_the_first_publishes(rt: HostRuntime) -> Result<(), Fail> {
    let gate = HoldsForASecond {
        claims: AtomicU64::new(0),
        publishes: AtomicU64::new(0),
        seen: AtomicU64::new(0),
    };
    let words: &[&str] = &["--workers", "2"];
    assert!(rt;
        writes(
            &rt,
            rt.alloc(),
            words,
            "crystal 2 5\n",
            degree_five(),
            &gate
        )?
    );
    assert_eq!(rt; gate.seen.load(Ordering::SeqCst), 1);
    Ok(())
}

// Holds row 0 until row 2, which needs it, was claimed, and for more turns. Row 2 must not be published before.
#[derive(Drop)]
struct HoldsANeededRow {
    claimed: AtomicU64,
    published: AtomicU64,
    held: AtomicU64,
}

impl Gate for HoldsANeededRow {
    fn at_claim(&self, _worker: usize, row: usize) {
        if row == 2 {
            self.claimed.store(1, Ordering::SeqCst);
        }
    }

    fn at_publish(&self, _worker: usize, row: usize) {
        if row == 2 {
            self.published.store(1, Ordering::SeqCst);
        }
        if row == 0
            && reaches(&self.claimed, 1, CLAIM_TURNS)
            && !reaches(&self.published, 1, HOLD_TURNS)
        {
            self.held.store(1, Ordering::SeqCst);
        }
    }
}

#[test]
fn a_worker_waits_for_the_row_that_it_needs(rt: HostRuntime) -> Result<(), Fail> {
    let gate = HoldsANeededRow {
        claimed: AtomicU64::new(0),
        published: AtomicU64::new(0),
        held: AtomicU64::new(0),
    };
    let words: &[&str] = &["--workers", "2"];
    assert!(rt;
        writes(
            &rt,
            rt.alloc(),
            words,
            "crystal 2 5\n",
            degree_five(),
            &gate
        )?
    );
    assert_eq!(rt; gate.held.load(Ordering::SeqCst), 1);
    Ok(())
}

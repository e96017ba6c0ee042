// In which order the workers of a run claim rows.
use crate::runs::writes;
use sp_pool::Gate;
use std::sync::atomic::{AtomicU64, Ordering};
use std::test::Fail;

// The ranks that were claimed, each one more, as the digits of a number.
#[derive(Drop)]
struct WritesClaims {
    claims: AtomicU64,
}

impl Gate for WritesClaims {
    fn at_claim(&self, _worker: usize, row: usize) {
        let before = self.claims.load(Ordering::SeqCst);
        let digit = (row as u64).wrapping_add(1);
        self.claims.store(
            before.wrapping_mul(10).wrapping_add(digit),
            Ordering::SeqCst,
        );
    }

    fn at_publish(&self, _worker: usize, _row: usize) {}
}

// The blocks of degree 4 at e = 3 have the ranks 0; 1 and 3; 2.
#[test]
fn one_worker_of_a_run_goes_through_the_blocks_in_order(rt: HostRuntime) -> Result<(), Fail> {
    let gate = WritesClaims {
        claims: AtomicU64::new(0),
    };
    let page =
        b"columns 4 3,1 2^2 2,1^2\n4: 1 . . .\n3,1: . 1 . .\n2^2: v . 1 .\n2,1^2: . . . 1\n1^4: . . v .\n";
    assert!(rt;
        writes(
            &rt,
            rt.alloc(),
            &["--workers", "1"],
            "crystal 3 4\n",
            page.as_slice(),
            &gate
        )?
    );
    assert_eq!(rt; gate.claims.load(Ordering::SeqCst), 1243);
    Ok(())
}

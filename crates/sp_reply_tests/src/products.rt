// Products and lists of fillings, as they are printed.
use sp_partition::{DEGREE_LIMIT, Partition};
use sp_replies::{put_fillings, put_product};
use std::alloc::Global;
use std::test::Fail;

fn product_of(alloc: Global, lambda: &[u8], mu: &[u8]) -> Result<Vec<u8>, Fail> {
    let lambda = Partition::from_parts(lambda)?;
    let mu = Partition::from_parts(mu)?;
    let mut out = Vec::new(alloc);
    if lambda.degree() + mu.degree() <= DEGREE_LIMIT {
        put_product(alloc, &lambda, &mu, &mut out)?;
    }
    Ok(out)
}

fn fillings_of(alloc: Global, lambda: &[u8], mu: &[u8], nu: &[u8]) -> Result<Vec<u8>, Fail> {
    let lambda = Partition::from_parts(lambda)?;
    let mu = Partition::from_parts(mu)?;
    let nu = Partition::from_parts(nu)?;
    let mut out = Vec::new(alloc);
    if lambda.degree() + mu.degree() <= DEGREE_LIMIT {
        put_fillings(alloc, &lambda, &mu, &nu, &mut out)?;
    }
    Ok(out)
}

#[test]
fn a_product_is_a_vector(rt: HostRuntime) -> Result<(), Fail> {
    let alloc = rt.alloc();
    assert_eq!(rt;
        product_of(alloc, &[2, 1], &[2, 1])?.as_slice(),
        b"[4,2] + [4,1^2] + [3^2] + 2[3,2,1] + [3,1^3] + [2^3] + [2^2,1^2]\n".as_slice()
    );
    assert_eq!(rt;
        product_of(alloc, &[], &[3])?.as_slice(),
        b"[3]\n".as_slice()
    );
    assert_eq!(rt;
        product_of(alloc, &[], &[])?.as_slice(),
        b"[-]\n".as_slice()
    );
    Ok(())
}

#[test]
fn the_fillings_of_a_partition_are_listed(rt: HostRuntime) -> Result<(), Fail> {
    let alloc = rt.alloc();
    assert_eq!(rt;
        fillings_of(alloc, &[2, 1], &[2, 1], &[3, 2, 1])?.as_slice(),
        b"2,1 < 3,2 < 3,2,1\n2,1 < 3,1^2 < 3,2,1\n".as_slice()
    );
    assert_eq!(rt;
        fillings_of(alloc, &[1], &[1], &[3])?.as_slice(),
        b"-\n".as_slice()
    );
    assert_eq!(rt;
        fillings_of(alloc, &[3], &[], &[3])?.as_slice(),
        b"3\n".as_slice()
    );
    Ok(())
}

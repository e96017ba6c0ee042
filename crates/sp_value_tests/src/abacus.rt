use sp_abacus::{CombineFault, abacus_text, beta, combine, core, quotient, weight};
use sp_partition::Partition;
use std::test::Fail;

#[test]
fn a_row_of_four(rt: HostRuntime) -> Result<(), Fail> {
    let p = Partition::from_parts(&[4]).unwrap_or_default();
    assert_eq!(rt; beta(3, &p).as_slice(), [6, 1, 0].as_slice());
    assert_eq!(rt; core(3, &p).parts(), [1].as_slice());
    assert_eq!(rt; weight(3, &p), 1);
    let of_three = quotient(3, &p);
    assert_eq!(rt; of_three.len(), 3);
    assert_eq!(rt; of_three[0].parts(), [1].as_slice());
    assert_eq!(rt; of_three[1].degree(), 0);
    assert_eq!(rt; of_three[2].degree(), 0);
    assert_eq!(rt; core(2, &p).degree(), 0);
    assert_eq!(rt; weight(2, &p), 2);
    let of_two = quotient(2, &p);
    assert_eq!(rt; of_two.len(), 2);
    assert_eq!(rt; of_two[0].degree(), 0);
    assert_eq!(rt; of_two[1].parts(), [2].as_slice());
    Ok(())
}

#[test]
fn cores_with_quotients(rt: HostRuntime) -> Result<(), Fail> {
    let empty = Partition::empty();
    let one = Partition::from_parts(&[1]).unwrap_or_default();
    let two = Partition::from_parts(&[2]).unwrap_or_default();
    let four = Partition::from_parts(&[4]).unwrap_or_default();
    assert_eq!(rt; combine(3, &one, &[one, empty, empty]), Ok(four));
    assert_eq!(rt; combine(2, &empty, &[empty, two]), Ok(four));
    assert_eq!(rt; combine(2, &two, &[empty, two]), Err(CombineFault::NotCore));
    assert_eq!(rt; combine(2, &empty, &[two]), Err(CombineFault::WrongCount));
    let three = Partition::from_parts(&[3]).unwrap_or_default();
    let seven = Partition::from_parts(&[7]).unwrap_or_default();
    assert_eq!(rt;
        combine(3, &three, &[empty, empty, empty]),
        Err(CombineFault::NotCore)
    );
    let twenty_two = Partition::from_parts(&[22]).unwrap_or_default();
    assert_eq!(rt; combine(3, &one, &[seven, empty, empty]), Ok(twenty_two));
    let ten = Partition::from_parts(&[10]).unwrap_or_default();
    assert_eq!(rt;
        combine(3, &one, &[ten, empty, empty]),
        Err(CombineFault::PastDegree)
    );
    Ok(())
}

#[test]
fn texts_of_abaci(rt: HostRuntime) -> Result<(), Fail> {
    let rows: [(u8, &[u8], &[u8]); 4] = [
        (3, &[4], b"oo.\n...\no..\n"),
        (3, &[3, 3, 1], b".o.\n.oo\n"),
        (4, &[5, 2, 2, 1, 1], b"ooo.\noo.o\no...\no...\n"),
        (2, &[], b"-\n"),
    ];
    for (e, parts, text) in rows {
        let p = Partition::from_parts(parts).unwrap_or_default();
        let mut out = Vec::from_slice(rt.alloc(), b"> ")?;
        abacus_text(rt.alloc(), e, &p, &mut out)?;
        assert_eq!(rt; &out[..2], b"> ".as_slice());
        assert_eq!(rt; &out[2..], text);
    }
    Ok(())
}

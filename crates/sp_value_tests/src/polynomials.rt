//! Worked values.
use sp_laurent::{Laurent, LaurentFault, ParseFault, Term, TooLarge};
use std::test::Fail;

#[test]
fn adds(rt: HostRuntime) -> Result<(), Fail> {
    let alloc = rt.alloc();
    let v = Laurent::monomial(alloc, 1, 1)?;
    let mut sum = Laurent::monomial(alloc, 1, 0)?;
    assert_eq!(rt;
        sum.add_scaled(alloc, &v, &v, 1),
        Err(LaurentFault::TooLarge)
    );
    assert_eq!(rt; sum.terms(), [(0, 1)].as_slice());
    assert_eq!(rt; sum.add_scaled(alloc, &v, &v, 2), Ok(()));
    assert_eq!(rt; sum.terms(), [(0, 1), (2, 1)].as_slice());
    assert_eq!(rt; sum.coefficient(2), 1);
    assert_eq!(rt; sum.coefficient(1), 0);
    assert_eq!(rt; sum.size(), 2);
    let mut text = Vec::from_slice(alloc, b"= ")?;
    sum.print(alloc, &mut text)?;
    assert_eq!(rt; text.as_slice(), b"= 1+v^2".as_slice());
    assert_eq!(rt; Laurent::zero(alloc).terms().len(), 0);
    Ok(())
}

#[test]
fn adds_in_a_slot(rt: HostRuntime) -> Result<(), Fail> {
    let alloc = rt.alloc();
    let v = Laurent::monomial(alloc, 1, 1)?;
    let minus = Laurent::monomial(alloc, -1, 0)?;
    let mut slots = vec![in alloc; Laurent::monomial(alloc, 1, 1)?]?;
    let taken = std::mem::replace(&mut slots[0], Laurent::zero(alloc));
    slots[0] = taken.plus_product(&v, &v, 2)?;
    assert_eq!(rt; slots[0].terms(), [(1, 1), (2, 1)].as_slice());
    let taken = std::mem::replace(&mut slots[0], Laurent::zero(alloc));
    slots[0] = taken.plus_product(&v, &minus, 3)?;
    assert_eq!(rt; slots[0].terms(), [(2, 1)].as_slice());
    assert_eq!(rt; v.shifted(alloc, -3)?.terms(), [(-2, 1)].as_slice());
    Ok(())
}

#[test]
fn adds_at_other_powers(rt: HostRuntime) -> Result<(), Fail> {
    let alloc = rt.alloc();
    let v = Laurent::monomial(alloc, 1, 1)?;
    let minus = Laurent::monomial(alloc, -1, 0)?;
    let sum = Laurent::monomial(alloc, 1, 0)?.plus_shifted(&v, -3, 2)?;
    assert_eq!(rt; sum.terms(), [(-2, 1), (0, 1)].as_slice());
    let sum = sum.plus_shifted(&minus, 0, 3)?;
    assert_eq!(rt; sum.terms(), [(-2, 1)].as_slice());
    let refused = sum.plus_shifted(&v, 1, 1);
    assert!(rt; matches!(refused, Err(LaurentFault::TooLarge)));
    Ok(())
}

#[test]
fn turns_and_lifts(rt: HostRuntime) -> Result<(), Fail> {
    let alloc = rt.alloc();
    let one = Laurent::monomial(alloc, 1, 0)?;
    let mut p = Laurent::monomial(alloc, 1, 0)?;
    assert_eq!(rt;
        p.add_scaled(alloc, &Laurent::monomial(alloc, 2, 1)?, &one, 3),
        Ok(())
    );
    assert_eq!(rt; p.copy(alloc)?.terms(), [(0, 1), (1, 2)].as_slice());
    assert_eq!(rt; p.negate(alloc)?.terms(), [(0, -1), (1, -2)].as_slice());
    assert_eq!(rt; p.bar(alloc)?.terms(), [(-1, 2), (0, 1)].as_slice());
    assert_eq!(rt; p.at_one(), 3);
    assert!(rt; !p.in_vzv());

    let mut q = Laurent::monomial(alloc, 1, 2)?;
    assert!(rt; q.in_vzv());
    assert_eq!(rt;
        q.add_scaled(alloc, &one, &Laurent::monomial(alloc, 1, -1)?, 9),
        Ok(())
    );
    assert_eq!(rt;
        q.add_scaled(alloc, &Laurent::monomial(alloc, 2, 0)?, &one, 9),
        Ok(())
    );
    assert!(rt; matches!(q.lift(alloc, 3), Err(LaurentFault::TooLarge)));
    match q.lift(alloc, 4) {
        Ok(lift) => assert_eq!(rt; lift.terms(), [(-1, 1), (0, 2), (1, 1)].as_slice()),
        Err(_) => assert!(rt; false),
    }
    Ok(())
}

#[test]
fn prints(rt: HostRuntime) -> Result<(), Fail> {
    let alloc = rt.alloc();
    let texts: [&[u8]; 6] = [b"0", b"v^-1+2+v", b"-3v^2", b"1-v", b"-1", b"-v^-2+12v"];
    for text in texts {
        let mut out = Vec::new(alloc);
        match Laurent::parse(alloc, text) {
            Ok(p) => p.print(alloc, &mut out)?,
            Err(_) => assert!(rt; false),
        }
        assert_eq!(rt; out.as_slice(), text);
    }
    Ok(())
}

#[test]
fn mirrors_and_slopes(rt: HostRuntime) -> Result<(), Fail> {
    let alloc = rt.alloc();
    let one = Laurent::monomial(alloc, 1, 0)?;
    let v = Laurent::monomial(alloc, 1, 1)?;
    let mut p = Laurent::monomial(alloc, 1, -1)?;
    assert_eq!(rt;
        p.add_scaled(alloc, &Laurent::monomial(alloc, 2, 0)?, &one, 9),
        Ok(())
    );
    let mut q = p.copy(alloc)?;
    assert_eq!(rt; p.add_scaled(alloc, &v, &one, 9), Ok(()));
    assert!(rt; p.is_bar_invariant());
    assert_eq!(rt;
        q.add_scaled(alloc, &Laurent::monomial(alloc, 1, 2)?, &one, 9),
        Ok(())
    );
    assert!(rt; !q.is_bar_invariant());
    assert!(rt; Laurent::zero(alloc).is_bar_invariant());
    assert!(rt; !v.is_bar_invariant());

    assert_eq!(rt; q.slope_at_one(3), Ok(1));
    assert_eq!(rt; q.slope_at_one(2), Err(TooLarge));
    assert_eq!(rt; Laurent::zero(alloc).slope_at_one(1), Ok(0));
    assert_eq!(rt; Laurent::monomial(alloc, -3, 2)?.slope_at_one(6), Ok(-6));
    Ok(())
}

#[test]
fn parses(rt: HostRuntime) -> Result<(), Fail> {
    let alloc = rt.alloc();
    let rows: [(&[u8], &[Term]); 9] = [
        (b"v^-1+2+v", &[(-1, 1), (0, 2), (1, 1)]),
        (b"-3v^2", &[(2, -3)]),
        (b"1-v", &[(0, 1), (1, -1)]),
        (b"0", &[]),
        (b"-1", &[(0, -1)]),
        (
            b"-v^-10000000+12v^10000000",
            &[(-10_000_000, -1), (10_000_000, 12)],
        ),
        (
            b"170141183460469231731687303715884105727",
            &[(0, i128::MAX)],
        ),
        (
            b"-170141183460469231731687303715884105727v",
            &[(1, -i128::MAX)],
        ),
        (
            b"1+170141183460469231731687303715884105726v",
            &[(0, 1), (1, i128::MAX - 1)],
        ),
    ];
    for (text, terms) in rows {
        match Laurent::parse(alloc, text) {
            Ok(p) => assert_eq!(rt; p.terms(), terms),
            Err(_) => assert!(rt; false),
        }
    }
    Ok(())
}

#[test]
fn refuses_other_texts(rt: HostRuntime) -> Result<(), Fail> {
    let texts: [&[u8]; 24] = [
        b"",
        b"+1",
        b"1v",
        b"v^1",
        b"v^0",
        b"v^-0",
        b"2v^02",
        b"-0",
        b"0v",
        b"0+v",
        b"01",
        b"v+1",
        b"v+v",
        b"1+v-",
        b"v^",
        b"v^+2",
        b"1 + v",
        b"1+v\n",
        b"v^10000001",
        b"v^-10000001",
        b"v^99999999999999999999999999999999999999999999",
        b"170141183460469231731687303715884105728",
        b"1+170141183460469231731687303715884105727v",
        b"680564733841876926926749214863536422912",
    ];
    for text in texts {
        let parsed = Laurent::parse(rt.alloc(), text);
        assert!(rt; matches!(parsed, Err(ParseFault::NotLaurent)));
    }
    Ok(())
}

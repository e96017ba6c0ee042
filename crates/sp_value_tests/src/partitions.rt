use sp_partition::{Items, NotPartition, Partition, all_of, place_in, rank, regular_of};
use std::test::Fail;

fn read(text: &[u8]) -> Result<Partition, Fail> {
    Ok(Partition::parse(text)?)
}

#[test]
fn prints_what_it_reads(rt: HostRuntime) -> Result<(), Fail> {
    for text in ["-", "5", "3,1^2", "2^2,1", "1^32"] {
        let mut out = Vec::new(rt.alloc());
        read(text.as_bytes())?.print(rt.alloc(), &mut out)?;
        assert_eq!(rt; out.as_slice(), text.as_bytes());
    }
    assert_eq!(rt; read(b"3,1^2")?.parts(), [3, 1, 1].as_slice());
    assert_eq!(rt; read(b"3,1^2")?.degree(), 5);
    Ok(())
}

#[test]
fn reads_other_texts(rt: HostRuntime) -> Result<(), Fail> {
    for text in ["3,1,1", "3,1^1,1", "(3,1,1)", "(3,1^2)", "3^1,1^2"] {
        assert_eq!(rt; read(text.as_bytes())?, read(b"3,1^2")?, "{text}");
    }
    assert_eq!(rt; read(b"(5)")?.parts(), [5].as_slice());
    assert_eq!(rt; read(b"2^2,2")?.parts(), [2, 2, 2].as_slice());
    Ok(())
}

#[test]
fn refuses_other_texts(rt: HostRuntime) {
    for text in [
        "", "0", "01", "03", "3,", ",3", "3,,1", "3^", "^2", "3^0", "3^02", "3^2^1", "1,3", "--",
        "a", "3 ", " 3", "()", "(-)", "(", ")", "(3,1", "3,1)", "((3))", "(3)(1)", "3,(1)", "+3",
    ] {
        assert_eq!(rt;
            Partition::parse(text.as_bytes()).err(),
            Some(NotPartition::Shape),
            "{text}"
        );
    }
    let long = "9999999999999999999999999999999999999999999999999999999999999999999999";
    for text in [
        "33",
        "20^2",
        "17,16",
        "1^33",
        "256",
        "1^256",
        "40,39^99999999999999999999,2",
        "(17,16)",
        "17,8,8",
        long,
    ] {
        assert_eq!(rt;
            Partition::parse(text.as_bytes()).err(),
            Some(NotPartition::PastCapacity),
            "{text}"
        );
    }
    assert_eq!(rt;
        Partition::parse(b"300,301").err(),
        Some(NotPartition::Shape)
    );
}

#[test]
fn takes_parts(rt: HostRuntime) -> Result<(), Fail> {
    assert_eq!(rt; Partition::from_parts(&[])?, Partition::empty());
    assert_eq!(rt; Partition::from_parts(&[3, 1, 1])?, read(b"3,1^2")?);
    assert_eq!(rt;
        Partition::from_parts(&[1, 3]).err(),
        Some(NotPartition::Shape)
    );
    assert_eq!(rt;
        Partition::from_parts(&[3, 0]).err(),
        Some(NotPartition::Shape)
    );
    assert_eq!(rt;
        Partition::from_parts(&[255, 255]).err(),
        Some(NotPartition::PastCapacity)
    );
    Ok(())
}

#[test]
fn orders_by_degree_first(rt: HostRuntime) -> Result<(), Fail> {
    assert!(rt; read(b"1^2")? < read(b"2")?);
    assert!(rt; read(b"2")? < read(b"1^3")?);
    assert!(rt; read(b"2^2,1")? < read(b"3,1^2")?);
    assert!(rt; read(b"-")? < read(b"1")?);
    assert!(rt; read(b"1^25")? < read(b"1^26")?);
    assert_ne!(rt; read(b"1^25")?, read(b"1^26")?);
    Ok(())
}

#[test]
fn moves_nodes(rt: HostRuntime) -> Result<(), Fail> {
    let p = read(b"3,1^2")?;
    assert_eq!(rt; p.add_node(0), None);
    assert_eq!(rt; p.add_node(1), Some(read(b"4,1^2")?));
    assert_eq!(rt; p.add_node(2), Some(read(b"3,2,1")?));
    assert_eq!(rt; p.add_node(3), None);
    assert_eq!(rt; p.add_node(4), Some(read(b"3,1^3")?));
    assert_eq!(rt; p.add_node(5), None);
    assert_eq!(rt; read(b"1^32")?.add_node(1), None);
    assert_eq!(rt; p.remove_node(1), Some(read(b"2,1^2")?));
    assert_eq!(rt; p.remove_node(2), None);
    assert_eq!(rt; p.remove_node(3), Some(read(b"3,1")?));
    assert_eq!(rt; p.remove_node(4), None);
    Ok(())
}

#[test]
fn knows_regular_partitions(rt: HostRuntime) -> Result<(), Fail> {
    assert!(rt; !read(b"3,1^2")?.is_regular(2));
    assert!(rt; read(b"3,1^2")?.is_regular(3));
    assert!(rt; read(b"-")?.is_regular(2));
    Ok(())
}

#[test]
fn keeps_items(rt: HostRuntime) -> Result<(), Fail> {
    let items = Items::of([1, 2].to_vec(rt.alloc())?);
    assert_eq!(rt; items.as_slice(), [1, 2].as_slice());
    assert_eq!(rt; items.into_vec().len(), 2);
    Ok(())
}

fn same_list(list: &[Partition], texts: &[&str]) -> Result<bool, Fail> {
    let mut place = 0;
    for text in texts {
        if list.get(place) != Some(&read(text.as_bytes())?) {
            return Ok(false);
        }
        place += 1;
    }
    Ok(place == list.len())
}

#[test]
fn lists_partitions(rt: HostRuntime) -> Result<(), Fail> {
    let four = all_of(rt.alloc(), 4)?;
    assert!(rt; same_list(&four, &["1^4", "2,1^2", "2^2", "3,1", "4"])?);
    let none = all_of(rt.alloc(), 0)?;
    assert!(rt; same_list(&none, &["-"])?);
    assert_eq!(rt; all_of(rt.alloc(), 30)?.len(), 5604);
    let regular = regular_of(rt.alloc(), 2, 5)?;
    assert!(rt; same_list(&regular, &["3,2", "4,1", "5"])?);
    Ok(())
}

#[test]
fn ranks_partitions(rt: HostRuntime) -> Result<(), Fail> {
    let four = all_of(rt.alloc(), 4)?;
    assert_eq!(rt; rank(&four, &read(b"3,1")?), Some(3));
    assert_eq!(rt; rank(&four, &read(b"3,2")?), None);
    let lines = [read(b"4")?, read(b"3,1")?, read(b"1^4")?];
    assert_eq!(rt; place_in(&lines, &read(b"1^4")?), Some(2));
    assert_eq!(rt; place_in(&lines, &read(b"2^2")?), None);
    Ok(())
}

#[test]
fn conjugates(rt: HostRuntime) -> Result<(), Fail> {
    for (text, columns) in [
        ("-", "-"),
        ("3,1", "2,1^2"),
        ("5,3^2", "3^3,1^2"),
        ("1^32", "32"),
    ] {
        let partition = read(text.as_bytes())?;
        let conjugate = read(columns.as_bytes())?;
        assert_eq!(rt; partition.conjugate(), conjugate, "{text}");
        assert_eq!(rt; conjugate.conjugate(), partition, "{text}");
    }
    Ok(())
}

#[test]
fn compares_by_dominance(rt: HostRuntime) -> Result<(), Fail> {
    for (upper, lower, expected) in [
        ("3,1", "2^2", true),
        ("2^2", "3,1", false),
        ("4,1^2", "3^2", false),
        ("3^2", "4,1^2", false),
        ("-", "-", true),
        ("3,1", "3,1", true),
        ("4,1^2", "4,1^2", true),
        ("32", "1^32", true),
        ("1^32", "32", false),
    ] {
        let first = read(upper.as_bytes())?;
        let second = read(lower.as_bytes())?;
        assert_eq!(rt; first.degree(), second.degree());
        assert_eq!(rt; first.dominates(&second), expected, "{upper} {lower}");
    }
    Ok(())
}

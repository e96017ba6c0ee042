use sp_lang::{Command, Convention, LineFault, read_command};
use sp_partition::Partition;
use std::test::Fail;

/// The word of a command, its first partition or its name, and its numbers and the degrees of its other partitions.
pub(crate) fn shown<'a>(command: &'a Command<'a>) -> (&'static str, &'a [u8], [u64; 3]) {
    match command {
        Command::Nothing => ("nothing", &[], [0; 3]),
        Command::Partitions(n) => ("partitions", &[], [u64::from(*n), 0, 0]),
        Command::Regular(e, n) => ("regular", &[], [u64::from(*e), u64::from(*n), 0]),
        Command::Conjugate(p) => ("conjugate", p.parts(), [0; 3]),
        Command::Dominates(p, q) => ("dominates", p.parts(), [u64::from(q.degree()), 0, 0]),
        Command::Diagram(e, p) => ("diagram", p.parts(), [u64::from(*e), 0, 0]),
        Command::Hooks(p) => ("hooks", p.parts(), [0; 3]),
        Command::Content(e, p) => ("content", p.parts(), [u64::from(*e), 0, 0]),
        Command::Core(e, p) => ("core", p.parts(), [u64::from(*e), 0, 0]),
        Command::Combine(e, p, quotient) => (
            "combine",
            p.parts(),
            [u64::from(*e), u64::from(sum(quotient.as_slice())), 0],
        ),
        Command::Abacus(e, p) => ("abacus", p.parts(), [u64::from(*e), 0, 0]),
        Command::Good(e, p) => ("good", p.parts(), [u64::from(*e), 0, 0]),
        Command::Path(e, mu) => ("path", mu.parts(), [u64::from(*e), 0, 0]),
        Command::Mullineux(e, mu) => ("mullineux", mu.parts(), [u64::from(*e), 0, 0]),
        Command::Induce(e, i, m, p) => (
            "induce",
            p.parts(),
            [u64::from(*e), u64::from(*i), u64::from(*m)],
        ),
        Command::Ladders(e, mu) => ("ladders", mu.parts(), [u64::from(*e), 0, 0]),
        Command::Ladder(e, mu) => ("ladder", mu.parts(), [u64::from(*e), 0, 0]),
        Command::Row(e, mu) => ("row", mu.parts(), [u64::from(*e), 0, 0]),
        Command::Crystal(e, n) => ("crystal", &[], [u64::from(*e), u64::from(*n), 0]),
        Command::Decomposition(e, n) => ("decomposition", &[], [u64::from(*e), u64::from(*n), 0]),
        Command::Block(e, kappa, w) => ("block", kappa.parts(), [u64::from(*e), *w, 0]),
        Command::Painter(name) => ("painter", name.as_bytes(), [0; 3]),
        Command::Jantzen(e, p) => ("jantzen", p.parts(), [u64::from(*e), 0, 0]),
        Command::Schaper(e, n) => ("schaper", &[], [u64::from(*e), u64::from(*n), 0]),
        Command::Dim(p) => ("dim", p.parts(), [0; 3]),
        Command::Dims(e, n) => ("dims", &[], [u64::from(*e), u64::from(*n), 0]),
        Command::Certificate(e, n) => ("certificate", &[], [u64::from(*e), u64::from(*n), 0]),
        Command::Check => ("check", &[], [0; 3]),
        Command::Convention(convention) => ("convention", convention.name(), [0; 3]),
        Command::Restrict(e, i, p) => ("restrict", p.parts(), [u64::from(*e), u64::from(*i), 0]),
        Command::Commutator(e, i, j, p) => (
            "commutator",
            p.parts(),
            [u64::from(*e), u64::from(*i), u64::from(*j)],
        ),
        Command::Branch(e, i, mu) => ("branch", mu.parts(), [u64::from(*e), u64::from(*i), 0]),
        Command::Product(p, q) => ("product", p.parts(), [u64::from(q.degree()), 0, 0]),
        Command::Fillings(p, q, r) => (
            "fillings",
            p.parts(),
            [u64::from(q.degree()), u64::from(r.degree()), 0],
        ),
        Command::Blocks(e, n) => ("blocks", &[], [u64::from(*e), u64::from(*n), 0]),
        Command::Inverse(e, n) => ("inverse", &[], [u64::from(*e), u64::from(*n), 0]),
        Command::Simple(e, mu) => ("simple", mu.parts(), [u64::from(*e), 0, 0]),
        Command::Cartan(e, n) => ("cartan", &[], [u64::from(*e), u64::from(*n), 0]),
    }
}

// A number that tells the quotients of the tests apart.
fn sum(quotient: &[Partition]) -> u8 {
    let mut sum = 0u8;
    for p in quotient {
        sum = sum.saturating_mul(5).saturating_add(p.degree());
    }
    sum
}

#[test]
fn lines_and_their_commands(rt: HostRuntime) -> Result<(), Fail> {
    let cases: [(&[u8], &str, &[u8], [u64; 3]); 47] = [
        (b"", "nothing", &[], [0; 3]),
        (b" \t ", "nothing", &[], [0; 3]),
        (b"# comment", "nothing", &[], [0; 3]),
        (b" #frob 1", "nothing", &[], [0; 3]),
        (b"partitions 0", "partitions", &[], [0; 3]),
        (b"partitions 30", "partitions", &[], [30, 0, 0]),
        (b"regular 2 5", "regular", &[], [2, 5, 0]),
        (b"conjugate (3,1,1)", "conjugate", &[3, 1, 1], [0; 3]),
        (b"conjugate -", "conjugate", &[], [0; 3]),
        (
            b"dominates 3,1^3 2^3",
            "dominates",
            &[3, 1, 1, 1],
            [6, 0, 0],
        ),
        (b"diagram 3 3,1", "diagram", &[3, 1], [3, 0, 0]),
        (b"hooks 3,1", "hooks", &[3, 1], [0; 3]),
        (b"content 64 3,1", "content", &[3, 1], [64, 0, 0]),
        (b"core 3 4", "core", &[4], [3, 0, 0]),
        (b"combine 3 1 1|-|-", "combine", &[1], [3, 25, 0]),
        (b"combine 3 1 7|-|-", "combine", &[1], [3, 175, 0]),
        (b"combine 3 1 -|2", "combine", &[1], [3, 2, 0]),
        (b"abacus 2 2^2", "abacus", &[2, 2], [2, 0, 0]),
        (b"good 2 2^2", "good", &[2, 2], [2, 0, 0]),
        (b"path 3 2^2", "path", &[2, 2], [3, 0, 0]),
        (b"mullineux 3 2^2", "mullineux", &[2, 2], [3, 0, 0]),
        (b"induce 2 0 1 3,1", "induce", &[3, 1], [2, 0, 1]),
        (b"induce 2 0 20 1", "induce", &[1], [2, 0, 20]),
        (b"induce 64 63 30 -", "induce", &[], [64, 63, 30]),
        (b"ladders 2 3,2", "ladders", &[3, 2], [2, 0, 0]),
        (b"ladder 3 4^2,1", "ladder", &[4, 4, 1], [3, 0, 0]),
        (b"\trow \t 2  3,2 ", "row", &[3, 2], [2, 0, 0]),
        (b"row 30 30", "row", &[30], [30, 0, 0]),
        (b"crystal 2 4", "crystal", &[], [2, 4, 0]),
        (b"decomposition 3 30", "decomposition", &[], [3, 30, 0]),
        (b"block 2 2,1 300", "block", &[2, 1], [2, 300, 0]),
        (
            b"block 2 - 18446744073709551614",
            "block",
            &[],
            [2, u64::MAX - 1, 0],
        ),
        (
            b"block 2 - 18446744073709551615",
            "block",
            &[],
            [2, u64::MAX, 0],
        ),
        (
            b"block 2 1 18446744073709551616",
            "block",
            &[1],
            [2, u64::MAX, 0],
        ),
        (
            b"block 2 1 99999999999999999999999",
            "block",
            &[1],
            [2, u64::MAX, 0],
        ),
        (b"painter tex", "painter", b"tex", [0; 3]),
        (b"painter\t # ", "painter", b"#", [0; 3]),
        (b"painter 1,3", "painter", b"1,3", [0; 3]),
        (b"jantzen 2 2^2", "jantzen", &[2, 2], [2, 0, 0]),
        (b"schaper 64 0", "schaper", &[], [64, 0, 0]),
        (b"dim (3,1,1)", "dim", &[3, 1, 1], [0; 3]),
        (b"dim -", "dim", &[], [0; 3]),
        (b"dims 5 9", "dims", &[], [5, 9, 0]),
        (b"dims 2 0", "dims", &[], [2, 0, 0]),
        (b"certificate 64 30", "certificate", &[], [64, 30, 0]),
        (b"check", "check", &[], [0; 3]),
        (b" \tcheck ", "check", &[], [0; 3]),
    ];
    for (line, word, parts, numbers) in cases {
        let outcome = read_command(rt.alloc(), Convention::Regular, line);
        assert!(rt; outcome.is_ok(), "at {line:?}");
        if let Ok(command) = &outcome {
            let (other_word, other_parts, other_numbers) = shown(command);
            assert!(rt; other_word == word, "at {line:?}");
            assert!(rt; other_parts == parts, "at {line:?}");
            assert!(rt; other_numbers == numbers, "at {line:?}");
        }
    }
    Ok(())
}

#[test]
fn lines_and_their_faults(rt: HostRuntime) -> Result<(), Fail> {
    let cases: [(&[u8], LineFault); 73] = [
        (b"frob 1", LineFault::UnknownCommand),
        (b"Row 2 1", LineFault::UnknownCommand),
        (b"rows", LineFault::UnknownCommand),
        (b"ro 2 1", LineFault::UnknownCommand),
        (b"row# 2 1", LineFault::UnknownCommand),
        (b"row 2", LineFault::WordCount),
        (b"row 2 1 1", LineFault::WordCount),
        (b"row", LineFault::WordCount),
        (b"row x", LineFault::WordCount),
        (b"row 2 1 #", LineFault::WordCount),
        (b"row x 5", LineFault::NotNumber),
        (b"row 02 5", LineFault::NotNumber),
        (b"row +2 5", LineFault::NotNumber),
        (b"row x 1,3", LineFault::NotNumber),
        (b"induce 2 0 - 1", LineFault::NotNumber),
        (b"regular 2 00", LineFault::NotNumber),
        (b"conjugate 1,3", LineFault::BadPartition),
        (b"conjugate 0", LineFault::BadPartition),
        (b"conjugate ()", LineFault::BadPartition),
        (b"row 1 1,3", LineFault::BadPartition),
        (b"combine 3 1 1||-", LineFault::BadPartition),
        (b"combine 3 1 1|-|", LineFault::BadPartition),
        (b"combine 3 1 |", LineFault::BadPartition),
        (b"row 65 1", LineFault::BadE),
        (b"row 1 31", LineFault::BadE),
        (b"row 0 1", LineFault::BadE),
        (b"row 258 1", LineFault::BadE),
        (b"row 18446744073709551618 1", LineFault::BadE),
        (b"induce 65 70 1 1", LineFault::BadE),
        (b"row 2 31", LineFault::DegreePast),
        (b"conjugate 500", LineFault::DegreePast),
        (b"conjugate 18446744073709551618", LineFault::DegreePast),
        (b"partitions 31", LineFault::DegreePast),
        (b"partitions 256", LineFault::DegreePast),
        (b"induce 2 0 30 1", LineFault::DegreePast),
        (b"induce 2 2 256 -", LineFault::DegreePast),
        (b"dominates 31 1", LineFault::DegreePast),
        (b"combine 3 1 31|-|-", LineFault::DegreePast),
        (b"dominates 2 1", LineFault::DegreesDiffer),
        (b"induce 2 2 1 1", LineFault::BadResidue),
        (b"induce 2 256 1 1", LineFault::BadResidue),
        (b"row 2 2^2", LineFault::NotRegular),
        (b"row 2 1\r", LineFault::BadByte),
        (b"# \x7f", LineFault::BadByte),
        (b"Dim 1", LineFault::UnknownCommand),
        (b"checks", LineFault::UnknownCommand),
        (b"Check", LineFault::UnknownCommand),
        (b"check x", LineFault::WordCount),
        (b"check #", LineFault::WordCount),
        (b"check\r", LineFault::BadByte),
        (b"certificate 2", LineFault::WordCount),
        (b"certificate x 31", LineFault::NotNumber),
        (b"certificate 65 31", LineFault::BadE),
        (b"crystal 2", LineFault::WordCount),
        (b"painter", LineFault::WordCount),
        (b"painter a b", LineFault::WordCount),
        (b"block 2 1", LineFault::WordCount),
        (b"dim 2 1", LineFault::WordCount),
        (b"block 2 1 x", LineFault::NotNumber),
        (b"block 2 1 01", LineFault::NotNumber),
        (b"block 2 0 x", LineFault::NotNumber),
        (b"schaper x 1", LineFault::NotNumber),
        (b"block 2 1,3 1", LineFault::BadPartition),
        (b"jantzen 2 1,3", LineFault::BadPartition),
        (b"block 65 1 1", LineFault::BadE),
        (b"decomposition 65 31", LineFault::BadE),
        (b"jantzen 1 31", LineFault::BadE),
        (b"block 2 31 1", LineFault::DegreePast),
        (b"crystal 2 31", LineFault::DegreePast),
        (b"schaper 2 256", LineFault::DegreePast),
        (b"jantzen 2 31", LineFault::DegreePast),
        (b"dim 31", LineFault::DegreePast),
        (b"painter \x80", LineFault::BadByte),
    ];
    for (line, fault) in cases {
        let outcome = read_command(rt.alloc(), Convention::Regular, line).err();
        assert!(rt; outcome == Some(fault), "at {line:?}");
    }
    Ok(())
}

#[test]
fn lines_of_many_bytes(rt: HostRuntime) -> Result<(), Fail> {
    let mut line = Vec::new(rt.alloc());
    for _ in 0..4096 {
        line.push(b' ')?;
    }
    assert!(rt;
        matches!(
            read_command(rt.alloc(), Convention::Regular, line.as_slice()),
            Ok(Command::Nothing)
        )
    );
    line.push(b'\r')?;
    let outcome = read_command(rt.alloc(), Convention::Regular, line.as_slice()).err();
    assert!(rt; outcome == Some(LineFault::LongLine));
    Ok(())
}

// The commands on restriction, products, blocks and inverse matrices.
use crate::lines::shown;
use sp_lang::{Convention, LineFault, read_command};
use std::test::Fail;

#[test]
fn lines_on_modules_and_their_commands(rt: HostRuntime) -> Result<(), Fail> {
    let cases: [(&[u8], &str, &[u8], [u64; 3]); 18] = [
        (b"restrict 2 0 3,1^2", "restrict", &[3, 1, 1], [2, 0, 0]),
        (b"restrict 64 63 -", "restrict", &[], [64, 63, 0]),
        (
            b"commutator 2 0 1 3,1^2",
            "commutator",
            &[3, 1, 1],
            [2, 0, 1],
        ),
        (b"commutator 64 63 62 30", "commutator", &[30], [64, 63, 62]),
        (b"branch 2 0 5", "branch", &[5], [2, 0, 0]),
        (b"branch 3 2 2^2", "branch", &[2, 2], [3, 2, 0]),
        (b"product 2,1 2,1", "product", &[2, 1], [3, 0, 0]),
        (b"product - 30", "product", &[], [30, 0, 0]),
        (b"product 30 -", "product", &[30], [0; 3]),
        (b"product 15 15", "product", &[15], [15, 0, 0]),
        (b"fillings 2,1 1^2 3,2,1", "fillings", &[2, 1], [2, 6, 0]),
        (b"fillings 15 15 30", "fillings", &[15], [15, 30, 0]),
        (b"fillings 1 1 3", "fillings", &[1], [1, 3, 0]),
        (b"blocks 3 4", "blocks", &[], [3, 4, 0]),
        (b"blocks 2 0", "blocks", &[], [2, 0, 0]),
        (b"inverse 2 30", "inverse", &[], [2, 30, 0]),
        (b"simple 2 3,1", "simple", &[3, 1], [2, 0, 0]),
        (b"cartan 64 4", "cartan", &[], [64, 4, 0]),
    ];
    for (line, word, parts, numbers) in cases {
        let outcome = read_command(rt.alloc(), Convention::Regular, line);
        assert!(rt; outcome.is_ok(), "at {line:?}");
        if let Ok(command) = &outcome {
            let (other_word, other_parts, other_numbers) = shown(command);
            assert!(rt; other_word == word, "at {line:?}");
            assert!(rt; other_parts == parts, "at {line:?}");
            assert!(rt; other_numbers == numbers, "at {line:?}");
        }
    }
    Ok(())
}

#[test]
fn lines_on_modules_and_their_faults(rt: HostRuntime) -> Result<(), Fail> {
    let cases: [(&[u8], LineFault); 39] = [
        (b"restrict 2 0", LineFault::WordCount),
        (b"restrict 2 - 1", LineFault::NotNumber),
        (b"restrict 2 0 1,3", LineFault::BadPartition),
        (b"restrict 65 70 1", LineFault::BadE),
        (b"restrict 2 2 31", LineFault::DegreePast),
        (b"restrict 2 2 1", LineFault::BadResidue),
        (b"commutator 2 0 1", LineFault::WordCount),
        (b"commutator 2 0 x 1", LineFault::NotNumber),
        (b"commutator 2 2 2 31", LineFault::DegreePast),
        (b"commutator 2 2 1 1", LineFault::BadResidue),
        (b"commutator 2 1 2 1", LineFault::BadResidue),
        (b"commutator 2 1 256 1", LineFault::BadResidue),
        (b"branch 2 0 1 1", LineFault::WordCount),
        (b"branch 1 0 1^2", LineFault::BadE),
        (b"branch 2 0 1^31", LineFault::DegreePast),
        (b"branch 2 2 1^2", LineFault::BadResidue),
        (b"branch 2 0 1^2", LineFault::NotRegular),
        (b"product 1", LineFault::WordCount),
        (b"product 40 1,3", LineFault::BadPartition),
        (b"product 20 11", LineFault::DegreePast),
        (b"product 16 15", LineFault::DegreePast),
        (b"product 31 -", LineFault::DegreePast),
        (b"product - 31", LineFault::DegreePast),
        (b"product 500 500", LineFault::DegreePast),
        (b"fillings 1 1", LineFault::WordCount),
        (b"fillings 20 11 x", LineFault::BadPartition),
        (b"fillings 20 11 1", LineFault::DegreePast),
        (b"fillings 1 1 31", LineFault::DegreePast),
        (b"blocks 2", LineFault::WordCount),
        (b"blocks 2 -", LineFault::NotNumber),
        (b"blocks 1 31", LineFault::BadE),
        (b"blocks 2 31", LineFault::DegreePast),
        (b"inverse 2 4 4", LineFault::WordCount),
        (b"inverse 2 31", LineFault::DegreePast),
        (b"simple 2", LineFault::WordCount),
        (b"simple 65 2^2", LineFault::BadE),
        (b"simple 2 2^2", LineFault::NotRegular),
        (b"cartan x 31", LineFault::NotNumber),
        (b"cartan 2 31", LineFault::DegreePast),
    ];
    for (line, fault) in cases {
        let outcome = read_command(rt.alloc(), Convention::Regular, line).err();
        assert!(rt; outcome == Some(fault), "at {line:?}");
    }
    Ok(())
}

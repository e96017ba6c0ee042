//! Worked dimensions.
use sp_dims::specht_dim;
use sp_partition::Partition;
use std::test::Fail;

#[test]
fn dims_of_specht_modules(rt: HostRuntime) -> Result<(), Fail> {
    assert_eq!(rt; specht_dim(&Partition::from_parts(&[3, 1])?), 3);
    assert_eq!(rt; specht_dim(&Partition::from_parts(&[2, 2])?), 2);
    assert_eq!(rt; specht_dim(&Partition::from_parts(&[3, 2])?), 5);
    assert_eq!(rt; specht_dim(&Partition::from_parts(&[])?), 1);
    assert_eq!(rt; specht_dim(&Partition::from_parts(&[1; 32])?), 1);
    assert_eq!(rt;
        specht_dim(&Partition::from_parts(&[8, 7, 6, 5, 4, 2])?),
        7_393_461_908_152_320
    );
    Ok(())
}

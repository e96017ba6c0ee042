// Arrays of parts, compared eight parts at a time.
ghost use Rattle.std.specs.Prelude.{◌≡◌, ◌+◌, ◌≤◌};
ghost use Rattle.std.specs.Int.{w64, from_be_bytes};
ghost use Rattle.sp_defs.specs.Partition.{compare};
ghost use Rattle.sp_partition.specs.Padded.{eight as eight_of};

use std::cmp::Ordering;

// The lexicographic order of two arrays of parts.
pub(crate) fn compare_arrays(first: &[u8; 32], second: &[u8; 32]) -> Ordering
    ensures { result ≡ compare first.now second.now }
{
    compare_eights(first, second, 0)
        .then_with(|| compare_eights(first, second, 8))
        .then_with(|| compare_eights(first, second, 16))
        .then_with(|| compare_eights(first, second, 24))
}

fn compare_eights(first: &[u8; 32], second: &[u8; 32], start: usize) -> Ordering
    requires { start + 8 ≤ 32 }
    ensures { result ≡ compare (eight_of start first.now) (eight_of start second.now) }
{
    eight(first, start).cmp(&eight(second, start))
}

// Eight parts as one number, in which an earlier part weighs more than all after it.
fn eight(parts: &[u8; 32], start: usize) -> u64
    requires { start + 8 ≤ 32 }
    ensures { result ≡ from_be_bytes w64 (eight_of start parts.now) }
{
    u64::from_be_bytes(*parts[start..].first_chunk::<8>().unwrap())
}

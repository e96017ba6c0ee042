// The conjugate of a partition: the lengths of the columns of its diagram.
ghost use Rattle.std.specs.Prelude.{◌≡◌, ◌≤◌, length, take, map, count_by, nat_le};
ghost use Rattle.sp_defs.specs.Partition.{conjugate as conjugate_of, from_one_to};

use crate::{CAPACITY, Partition};

impl Partition {
    /// The partition whose parts are the lengths of the columns.
    pub fn conjugate(&self) -> Partition
        ensures columns { result ≡ conjugate_of self.now }
        ensures involution { conjugate_of (conjugate_of self.now) ≡ self.now }
    {
        let parts = self.parts();
        let width = parts.first().copied().unwrap_or(0);
        let columns = column_lengths(parts, width);
        Partition::from_parts(&columns[..width as usize]).unwrap()
    }
}

// The lengths of the first columns, `width` of them, with zeros behind.
fn column_lengths(parts: &[u8], width: u8) -> [u8; 32]
    requires few { length parts.now ≤ CAPACITY }
    requires narrow { width ≤ CAPACITY }
    ensures size { length result ≡ CAPACITY }
    ensures lengths { take width result ≡ map (λ c. count_by (λ p. nat_le c p) parts.now) (from_one_to width) }
{
    let mut columns = [0; 32];
    for column in 0..width {
        columns[column as usize] = rows_reaching(parts, column + 1);
    }
    columns
}

// How many of the parts are at least so great.
fn rows_reaching(parts: &[u8], column: u8) -> u8
    requires { length parts.now ≤ CAPACITY }
    ensures { result ≡ count_by (λ p. nat_le column p) parts.now }
{
    parts.iter().filter(|part| **part >= column).count() as u8
}

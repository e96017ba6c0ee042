// A partition is a fixed array of parts, seen as its list.
ghost use Rattle.std.specs.Prelude.{◌≡◌, ◌↔◌, ℕ, ◌+◌, ◌-◌, ◌*◌, ◌<◌, ◌≤◌, ◌++◌, [], replicate, IfOk, IfSome};
ghost use Rattle.std.specs.Prelude.{List, true, IsTrue, SomeIff, length, sum};
ghost use Rattle.sp_defs.specs.Partition.{degree as degree_of, part as part_of, IsPartition, compare};
ghost use Rattle.sp_defs.specs.Partition.{is_regular as regular};
ghost use Rattle.sp_defs.specs.Node.{is_addable, is_removable};
ghost use Rattle.sp_defs.specs.Signature.{grow, shrink};
ghost use Rattle.sp_partition.specs.Held.{IsHeld, IsPast};
ghost use Rattle.sp_partition.specs.Nodes.{CanAdd, CanRemove, Differ, IsWithNode};
ghost use Rattle.sp_partition.specs.Padded.{padded as padded_parts};

use crate::CAPACITY;
use crate::eights::compare_arrays;
use std::cmp::Ordering;
use std::marker::Model;

/// A partition of at most `CAPACITY`: its parts, positive and weakly decreasing.
#[derive(Clone, Copy, Debug)]
pub struct Partition {
    degree: u8,
    parts: [u8; 32],
    count: u8,
}

impl Model for Partition {
    ghost use Rattle.std.specs.Prelude.{ℕ, List, take, length, sum};

    ghost Value = { List ℕ };

    ghost use Rattle.sp_partition.specs.Padded.{IsPadded, padded};

    ghost view = { λ p. take p.count p.parts };

    ghost invariant = { λ p. IsPadded p.degree p.count p.parts };

    ghost inverse = { λ xs. record { degree = sum xs; count = length xs; parts = padded xs } };

    ghost use Rattle.sp_partition.specs.Padded.{rebuilt};

    ghost inverse_ok = { λ a. rebuilt (λ d p c. record { degree = d; parts = p; count = c }) a.degree a.count a.parts };
}

/// Why a list of parts, or a text, is no `Partition`.
#[derive(Clone, Copy, Debug, PartialEq, Eq)]
pub enum NotPartition {
    /// It isn't a partition.
    Shape,
    /// It is a partition, of a degree past `CAPACITY`.
    PastCapacity,
}

impl Default for Partition {
    ghost is_default = { λ p. p ≡ [] };

    fn default() -> Partition {
        Partition::empty()
    }
}

impl Partition {
    /// The partition of 0.
    pub fn empty() -> Partition
        ensures { result ≡ [] }
    {
        Partition {
            degree: 0,
            count: 0,
            parts: [0; 32],
        }
    }

    /// The partition with these parts.
    ///
    /// `Shape` where a part is 0 or greater than the one before it, `PastCapacity` where the sum is past `CAPACITY`.
    pub fn from_parts(parts: &[u8]) -> Result<Partition, NotPartition>
        ensures ok { IfOk result (λ p. p ≡ parts.now) }
        ensures held { IsHeld parts.now ↔ (result ≡ Ok parts.now) }
        ensures shape { (result ≡ Err NotPartition.Shape) ↔ ¬ IsPartition parts.now }
        ensures past { (result ≡ Err NotPartition.PastCapacity) ↔ IsPast parts.now }
    {
        if !falls(parts) {
            return Err(NotPartition::Shape);
        }
        match small_sum(parts) {
            Some(degree) => Ok(Partition {
                degree,
                parts: padded(parts),
                count: parts.len() as u8,
            }),
            None => Err(NotPartition::PastCapacity),
        }
    }

    /// The sum of the parts.
    pub fn degree(&self) -> u8
        ensures sum { result ≡ degree_of self.now }
        ensures held { IsHeld self.now }
    {
        self.degree
    }

    /// The parts, from the greatest to the least.
    pub fn parts(&self) -> &[u8]
        ensures parts { result.now ≡ self.now }
        ensures held { IsHeld self.now }
    {
        &self.parts[..self.count as usize]
    }

    /// The number of rows, which is that of the parts.
    #[tactic(auto, using(crate::proofs::Holding::few_parts))]
    pub fn row_count(&self) -> u8
        ensures value { result ≡ length self.now }
        ensures small { result ≤ CAPACITY }
        ensures held { IsHeld self.now }
    {
        self.parts().len() as u8
    }

    /// Whether no `e` of the parts are equal.
    pub fn is_regular(&self, e: u8) -> bool
        requires { 2 ≤ e }
        ensures { result ≡ regular e self.now }
    {
        differ(self.parts(), e as usize - 1)
    }

    /// The length of this row, counted from 1, which is 0 below the last.
    pub fn part(&self, row: u8) -> u8
        requires { 0 < row }
        ensures value { result ≡ part_of self.now row }
        ensures small { result ≤ CAPACITY }
    {
        self.parts().get(row as usize - 1).copied().unwrap_or(0)
    }

    /// Whether the row has an addable node: it is the first, or the row above is longer.
    pub fn can_grow(&self, row: u8) -> bool
        ensures { result ≡ is_addable self.now (row, part_of self.now row + 1) }
    {
        row == 1 || row > 1 && self.part(row - 1) > self.part(row)
    }

    /// Whether the row has a removable node: the row below is shorter.
    pub fn can_shrink(&self, row: u8) -> bool
        ensures { result ≡ is_removable self.now (row, part_of self.now row) }
    {
        0 < row && row <= self.count && self.part(row) > self.part(row + 1)
    }

    /// The partition with one node more in this row, counted from 1.
    ///
    /// None where the row has no addable node, or the degree is `CAPACITY`.
    pub fn add_node(&self, row: u8) -> Option<Partition>
        ensures node { SomeIff result
            (CanAdd row self.now)
            (grow (row - 1) self.now) }
        ensures held { IfSome result IsHeld }
        ensures more { (p : List ℕ) → (result ≡ Some p) ↔
            (IsWithNode row (part_of self.now row + 1) self.now p × (degree_of p ≤ CAPACITY)) }
        ensures addable { (column : ℕ) →
            (is_addable self.now (row, column) ≡ true) ↔ ((p : List ℕ) × IsWithNode row column self.now p) }
    {
        if self.degree == CAPACITY || !self.can_grow(row) {
            return None;
        }
        let mut grown = *self;
        grown.parts[row as usize - 1] += 1;
        grown.degree += 1;
        grown.count = grown.count.max(row);
        Some(grown)
    }

    /// The partition with one node less in this row, counted from 1. None where the row has no removable node.
    pub fn remove_node(&self, row: u8) -> Option<Partition>
        ensures node { SomeIff result (CanRemove row self.now) (shrink (row - 1) self.now) }
        ensures held { IfSome result IsHeld }
        ensures less { (p : List ℕ) → (result ≡ Some p) ↔ IsWithNode row (part_of self.now row) p self.now }
        ensures removable { (column : ℕ) →
            (is_removable self.now (row, column) ≡ true) ↔ ((p : List ℕ) × IsWithNode row column p self.now) }
    {
        if !self.can_shrink(row) {
            return None;
        }
        let place = row as usize - 1;
        let mut shrunk = *self;
        shrunk.parts[place] -= 1;
        shrunk.degree -= 1;
        if shrunk.parts[place] == 0 {
            shrunk.count -= 1;
        }
        Some(shrunk)
    }

    /// The lexicographic order of the lists of parts, whatever the degrees. Among partitions of one degree it is the
    /// order of partitions.
    pub fn compare_parts(&self, other: &Partition) -> Ordering
        ensures { result ≡ compare self.now other.now }
    {
        // It is the order of the whole arrays, since the zeros behind the parts are less than any part.
        compare_arrays(&self.parts, &other.parts)
    }

    // The partition with so many equal parts more, unless that is past the capacity.
    pub(crate) fn with_run(&self, part: u8, times: u8) -> Option<Partition>
        requires { degree_of self.now + times * part ≤ CAPACITY → IsPartition (self.now ++ replicate times part) }
        ensures { SomeIff result (degree_of self.now + times * part ≤ CAPACITY) (self.now ++ replicate times part) }
    {
        let degree = self.degree as u16 + times as u16 * part as u16;
        if degree > CAPACITY as u16 {
            return None;
        }
        let start = self.count as usize;
        let mut longer = *self;
        fill(&mut longer.parts[start..start + times as usize], part);
        longer.degree = degree as u8;
        longer.count += times;
        Some(longer)
    }
}

// Whether these are the parts of a partition.
fn falls(parts: &[u8]) -> bool
    ensures { IsTrue result ↔ IsPartition parts.now }
{
    let mut most = u8::MAX;
    for part in parts {
        if *part == 0 || *part > most {
            return false;
        }
        most = *part;
    }
    true
}

// The sum, unless it is past the capacity.
fn small_sum(parts: &[u8]) -> Option<u8>
    ensures { SomeIff result (sum parts.now ≤ CAPACITY) (sum parts.now) }
{
    let mut sum = 0;
    for part in parts {
        if *part > CAPACITY - sum {
            return None;
        }
        sum += *part;
    }
    Some(sum)
}

fn fill(places: &mut [u8], part: u8)
    ensures { places.new ≡ replicate (length places.old) part }
{
    places.fill(part);
}

// These parts, with zeros behind them.
fn padded(parts: &[u8]) -> [u8; 32]
    requires { length parts.now ≤ CAPACITY }
    ensures { result ≡ padded_parts parts.now }
{
    let mut array = [0; 32];
    array[..parts.len()].copy_from_slice(parts);
    array
}

// Whether no two parts that stand so many places apart are equal.
fn differ(parts: &[u8], gap: usize) -> bool
    ensures { IsTrue result
        ↔ Differ gap parts.now }
{
    parts
        .iter()
        .zip(parts.iter().skip(gap))
        .all(|(upper, lower)| upper != lower)
}

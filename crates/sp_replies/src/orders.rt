// Answers on partitions and their orders.
ghost use Rattle.std.specs.Prelude.{◌≡◌, ◌++◌, ◌↔◌, ◌≤◌, List, ℕ, OnOk, IsTrue, codes, reverse};
ghost use Rattle.sp_defs.specs.Partition.{Dominates, degree as degree_of};
ghost use Rattle.sp_replies.specs.Orders.{partition_line, partition_lines, partitions_text, regulars_text};
ghost use Rattle.sp_replies.specs.Orders.{conjugate_text, does_dominate, dominance_text};

use sp_partition::{CAPACITY, Partition, all_of, regular_of};
use std::alloc::{AllocError, Global};

/// The partitions of `n`, descending, one per line. An `Err` leaves `out` unspecified, here and below.
pub fn put_partitions(alloc: Global, n: u8, out: &mut Vec<u8>) -> Result<(), AllocError>
    requires { n ≤ CAPACITY }
    ensures { OnOk result (out.new.items ≡ out.old.items ++ partitions_text n) }
{
    put_descending(alloc, all_of(alloc, n)?, out)
}

/// The `e`-regular partitions of `n`, descending, one per line.
pub fn put_regulars(alloc: Global, e: u8, n: u8, out: &mut Vec<u8>) -> Result<(), AllocError>
    requires least { 2 ≤ e }
    requires most { n ≤ CAPACITY }
    ensures { OnOk result (out.new.items ≡ out.old.items ++ regulars_text e n) }
{
    put_descending(alloc, regular_of(alloc, e, n)?, out)
}

// The partitions from the last to the first, one per line.
fn put_descending(
    alloc: Global,
    mut list: Vec<Partition>,
    out: &mut Vec<u8>,
) -> Result<(), AllocError>
    ensures { OnOk result (out.new.items ≡ out.old.items ++ partition_lines (reverse list.items)) }
{
    list.reverse();
    put_lines(alloc, &list, out)
}

fn put_lines(alloc: Global, list: &[Partition], out: &mut Vec<u8>) -> Result<(), AllocError>
    ensures { OnOk result (out.new.items ≡ out.old.items ++ partition_lines list.now) }
{
    for p in list {
        put_line(alloc, p, out)?;
    }
    Ok(())
}

/// A partition as a line.
pub(crate) fn put_line(alloc: Global, p: &Partition, out: &mut Vec<u8>) -> Result<(), AllocError>
    ensures { OnOk result (out.new.items ≡ out.old.items ++ partition_line p.now) }
{
    p.print(alloc, out)?;
    out.extend_from_slice(b"\n")
}

/// The conjugate.
pub fn put_conjugate(alloc: Global, p: &Partition, out: &mut Vec<u8>) -> Result<(), AllocError>
    ensures { OnOk result (out.new.items ≡ out.old.items ++ conjugate_text p.now) }
{
    put_line(alloc, &p.conjugate(), out)
}

/// Whether the first dominates the second.
pub fn put_dominance(
    upper: &Partition,
    lower: &Partition,
    out: &mut Vec<u8>,
) -> Result<(), AllocError>
    requires { degree_of upper.now ≡ degree_of lower.now }
    ensures text { OnOk result (out.new.items ≡ out.old.items ++ dominance_text upper.now lower.now) }
    ensures yes { OnOk result (Dominates upper.now lower.now → out.new.items ≡ out.old.items ++ codes "yes\n") }
    ensures no { OnOk result (¬ Dominates upper.now lower.now → out.new.items ≡ out.old.items ++ codes "no\n") }
{
    if dominates(upper, lower) {
        out.extend_from_slice(b"yes\n")
    } else {
        out.extend_from_slice(b"no\n")
    }
}

// The test of the answer is dominance.
fn dominates(upper: &Partition, lower: &Partition) -> bool
    requires { degree_of upper.now ≡ degree_of lower.now }
    ensures answer { result ≡ does_dominate upper.now lower.now }
    ensures meaning { IsTrue result ↔ Dominates upper.now lower.now }
{
    upper.dominates(lower)
}

/// The test that the answer to `dominates` is defined by is dominance, between lists of one degree.
pub fn dominance_law()
    ensures { (upper lower : List ℕ) → degree_of upper ≡ degree_of lower →
        IsTrue (does_dominate upper lower) ↔ Dominates upper lower }
{}

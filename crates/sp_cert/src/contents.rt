// Contents of partitions.
ghost use Rattle.std.specs.Prelude.{◌≡◌, ◌<◌, ◌≤◌, ℕ, List, [], not, take, length, get_or, IfOk};
ghost use Rattle.std.specs.List.{list_any};
ghost use Rattle.sp_cert.specs.Order.{same_content};
ghost use Rattle.sp_cert.specs.Counts.{AreContents};

use arrayvec::ArrayVec;
use sp_nodes::content;
use sp_partition::Partition;
use std::alloc::{AllocError, Global};

/// Whether two partitions have as many nodes of each residue.
pub(crate) fn is_same_content(e: u8, mu: &Partition, nu: &Partition) -> bool
    requires e_least { 2 ≤ e }
    requires e_most { e ≤ 64 }
    ensures { result ≡ same_content e mu.now nu.now }
{
    content(e, mu).as_slice() == content(e, nu).as_slice()
}

/// The content of each partition of a list.
pub(crate) fn contents_of(
    alloc: Global,
    e: u8,
    list: &[Partition],
) -> Result<Vec<ArrayVec<u8, 64>>, AllocError>
    requires e_least { 2 ≤ e }
    requires e_most { e ≤ 64 }
    ensures { IfOk result (λ contents. AreContents e list.now contents.items) }
{
    let mut contents = Vec::new(alloc);
    for mu in list {
        contents.push(content(e, mu))?;
    }
    Ok(contents)
}

/// Whether the partitions at two places of a list have one content, by the contents of the list.
pub(crate) fn is_same(contents: &[ArrayVec<u8, 64>], i: usize, j: usize) -> bool
    requires first { i < length contents.now }
    requires second { j < length contents.now }
    ensures { (e : ℕ) (list : List (List ℕ)) → AreContents e list contents.now →
        result ≡ same_content e (get_or list i []) (get_or list j []) }
{
    contents[i].as_slice() == contents[j].as_slice()
}

/// Whether no earlier partition of a list has the content of the one at a place, by the contents of the list.
pub(crate) fn is_leader(contents: &[ArrayVec<u8, 64>], place: usize) -> bool
    requires place { place < length contents.now }
    ensures { (e : ℕ) (list : List (List ℕ)) → AreContents e list contents.now →
        result ≡ not (list_any (same_content e (get_or list place [])) (take place list)) }
{
    for earlier in 0..place {
        if is_same(contents, place, earlier) {
            return false;
        }
    }
    true
}

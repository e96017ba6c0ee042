// Fillings, as chains of partitions.
ghost use Rattle.std.specs.Prelude.{◌≡◌, ◌+◌, ◌≤◌, ◌<◌, ◌++◌, ◌∷◌, [], IfOk, OnOk, Err, length, map, sum};
ghost use Rattle.sp_defs.specs.Partition.{degree as degree_of, part as part_of};
ghost use Rattle.sp_lr_defs.specs.Filling.{ListsEach, IsChain};
ghost use Rattle.sp_lr_defs.specs.Listing.{chains_over};
ghost use Rattle.sp_lr.specs.Strips.{behind, chains, IsRoom};
ghost use Rattle.sp_lr.specs.Results.{AreMore, chains_in};

use crate::LrFault;
use crate::strips::{append, strips};
use sp_partition::{CAPACITY, Items, Partition};
use std::alloc::{AllocError, Global};

/// A filling of a skew shape with numbers.
#[derive(Debug, Drop)]
pub struct Filling {
    /// From the inner partition on, each further member adds the nodes with the next number.
    pub chain: Items<Partition>,
}

/// All fillings over `lambda` with content `mu`, descending by their chains. (Macdonald, Symmetric Functions and Hall
/// Polynomials, I.9)
///
/// The degrees together are at most 32. `TooMany` only where there are more than `most`, and a result only where there
/// are not.
pub fn fillings(
    alloc: Global,
    lambda: &Partition,
    mu: &Partition,
    most: usize,
) -> Result<Vec<Filling>, LrFault>
    requires { degree_of lambda.now + degree_of mu.now ≤ 32 }
    ensures lists { IfOk result (λ found. ListsEach (IsChain lambda.now mu.now) (chains_in found.items)) }
    ensures few { IfOk result (λ found. length found.items ≤ most) }
    ensures many { (result ≡ Err LrFault.TooMany) → AreMore (IsChain lambda.now mu.now) most }
    ensures listed { IfOk result (λ found. chains_in found.items ≡ chains_over lambda.now mu.now) }
    ensures within { OnOk result (length (chains_over lambda.now mu.now) ≤ most) }
    ensures past { (result ≡ Err LrFault.TooMany) → most < length (chains_over lambda.now mu.now) }
{
    // the proof needs what the type keeps: a partition of at most the capacity
    prove!(lambda.degree() <= CAPACITY);
    let mut found = Vec::new(alloc);
    let mut chain = Vec::new(alloc);
    append(&mut chain, *lambda)?;
    push_fillings(
        alloc,
        &mut found,
        &mut chain,
        lambda,
        lambda,
        mu.part(1),
        mu.parts(),
        most,
    )?;
    Ok(found)
}

// Appends the chain, continued in all ways by strips of these sizes.
fn push_fillings(
    alloc: Global,
    found: &mut Vec<Filling>,
    chain: &mut Vec<Partition>,
    before: &Partition,
    last: &Partition,
    spare: u8,
    sizes: &[u8],
    most: usize,
) -> Result<(), LrFault>
    requires room { IsRoom before.now last.now spare }
    requires small { degree_of last.now + sum sizes.now ≤ 32 }
    requires few_before { length found.old.items ≤ most }
    ensures found { OnOk result (chains_in found.new.items
        ≡ chains_in found.old.items ++ behind chain.old.items (chains before.now last.now spare sizes.now)) }
    ensures chain { OnOk result (chain.new.items ≡ chain.old.items) }
    ensures few { OnOk result (length found.new.items ≤ most) }
    ensures many { (result ≡ Err LrFault.TooMany) →
        most < length found.old.items + length (chains before.now last.now spare sizes.now) }
{
    match sizes {
        [] => {
            if found.len() == most {
                return Err(LrFault::TooMany);
            }
            push_filling(alloc, found, chain)?;
            Ok(())
        }
        [size, later @ ..] => {
            let shapes = strips(alloc, before, last, spare, *size)?;
            for shape in &shapes {
                append(chain, *shape)?;
                push_fillings(alloc, found, chain, last, shape, 0, later, most)?;
                chain.pop();
            }
            Ok(())
        }
    }
}

fn push_filling(
    alloc: Global,
    found: &mut Vec<Filling>,
    chain: &[Partition],
) -> Result<(), AllocError>
    ensures chains { OnOk result (chains_in found.new.items ≡ chains_in found.old.items ++ chain.now ∷ []) }
    ensures one { OnOk result (length found.new.items ≡ length found.old.items + 1) }
{
    let chain = Items::of(Vec::from_slice(alloc, chain)?);
    found.push(Filling { chain })?;
    Ok(())
}

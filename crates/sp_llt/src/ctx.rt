// What all rows of one table share.
ghost use Rattle.std.specs.Prelude.{◌≡◌, ◌≤◌, ◌<◌, ◌^◌, ℕ, [], IfOk, IfSome, filter, length, map, get_or};
ghost use Rattle.std.specs.List.{AllByRecursion};
ghost use Rattle.sp_defs.specs.Partition.{partitions, is_regular};
ghost use Rattle.sp_llt.specs.Place.{key_of, labels, IsKey};
ghost use Rattle.sp_llt.specs.Places.{AreAt, ArePlaces, scope_of};

use sp_core::Key;
use sp_partition::{DEGREE_LIMIT, Partition, all_of};
use sp_ranks::Moves;
use std::alloc::{AllocError, Global};
use std::marker::Model;

/// An e, a degree and a limit on coefficients, with the lists of all and of the e-regular partitions of the degree.
#[derive(Drop)]
pub struct Ctx {
    key: Key,
    all: Vec<Partition>,
    regulars: Vec<Partition>,
    // Where the e-regular ones stand among all.
    places: Vec<usize>,
    // By which ladder vectors are made over ranks, where it is there.
    moves: Option<Moves>,
}

impl Model for Ctx {
    ghost use Rattle.sp_core.specs.declared.piece.Key.{Key};
    ghost use Rattle.sp_llt.specs.Places.{IsContext};

    ghost Value = { Key };

    ghost view = { λ c. c.key };

    ghost invariant = { λ c. IsContext c.key c.all.items c.regulars.items c.places.items c.moves };
}

impl Ctx {
    /// The context of the e-regular partitions of a degree, for sizes of coefficients up to a limit.
    pub fn open(alloc: Global, e: u8, degree: u8, limit: u128) -> Result<Ctx, AllocError>
        requires e_least { 2 ≤ e }
        requires e_most { e ≤ 64 }
        requires degree { degree ≤ DEGREE_LIMIT }
        requires least { 1 ≤ limit }
        requires most { limit < 2 ^ 127 }
        ensures { IfOk result (λ c. c ≡ key_of e degree limit) }
    {
        Ctx::with_moves(alloc, Key { e, degree, limit }, None)
    }

    /// The same context, for whoever makes all its rows: it is opened with a table by which their ladder vectors are
    /// made sooner. The table costs more than a single row of a small block.
    pub fn open_for_all(alloc: Global, e: u8, degree: u8, limit: u128) -> Result<Ctx, AllocError>
        requires e_least { 2 ≤ e }
        requires e_most { e ≤ 64 }
        requires degree { degree ≤ DEGREE_LIMIT }
        requires least { 1 ≤ limit }
        requires most { limit < 2 ^ 127 }
        ensures { IfOk result (λ c. c ≡ key_of e degree limit) }
    {
        let moves = Moves::open(alloc, e, degree)?;
        Ctx::with_moves(alloc, Key { e, degree, limit }, Some(moves))
    }

    // The context with this table, or with none.
    fn with_moves(alloc: Global, key: Key, moves: Option<Moves>) -> Result<Ctx, AllocError>
        requires key { IsKey key }
        requires moves { IfSome moves (λ scope. scope ≡ scope_of key) }
        ensures { IfOk result (λ c. c ≡ key) }
    {
        let all = all_of(alloc, key.degree)?;
        let (regulars, places) = regulars_among(alloc, &all, key.e)?;
        Ok(Ctx {
            key,
            all,
            regulars,
            places,
            moves,
        })
    }

    /// The e, degree and limit of the context. It takes no memory.
    pub fn key(&self) -> Key
        ensures value { result ≡ self.now }
        ensures held { IsKey result }
    {
        self.key
    }

    /// The e-regular partitions of the degree, ascending: their places are the ranks. It takes no memory.
    pub fn regulars(&self) -> &[Partition]
        ensures value { result.now ≡ labels self.now }
        ensures some { 1 ≤ length result.now }
        ensures few { length result.now ≤ 5604 }
        ensures held { IsKey self.now }
    {
        &self.regulars
    }

    /// All partitions of the degree, ascending. It takes no memory.
    pub(crate) fn all(&self) -> &[Partition]
        ensures value { result.now ≡ partitions self.now.degree }
        ensures few { length result.now ≤ 2 ^ 16 }
    {
        &self.all
    }

    /// The table by which ladder vectors are made over ranks, where it is there. It takes no memory.
    pub(crate) fn moves(&self) -> Option<&Moves>
        ensures { IfSome result (λ moves. moves.now ≡ scope_of self.now) }
    {
        self.moves.as_ref()
    }

    /// For each rank the place of its partition among all. It takes no memory.
    pub(crate) fn places(&self) -> &[usize]
        ensures { ArePlaces self.now result.now }
    {
        &self.places
    }
}

// The e-regular partitions of a list, in its order, and where they stand in it.
fn regulars_among(
    alloc: Global,
    all: &[Partition],
    e: u8,
) -> Result<(Vec<Partition>, Vec<usize>), AllocError>
    requires { 2 ≤ e }
    ensures regulars { IfOk result (λ found. found.0.items ≡ filter (is_regular e) all.now) }
    ensures places { IfOk result (λ found. AreAt all.now found.0.items found.1.items) }
{
    let mut regulars = Vec::new(alloc);
    let mut places = Vec::new(alloc);
    for place in 0..all.len() {
        let p = all[place];
        if p.is_regular(e) {
            regulars.push(p)?;
            places.push(place)?;
        }
    }
    Ok((regulars, places))
}

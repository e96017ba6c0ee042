// The lines of a column: what one share or one entry more makes of it, where it is allowed.
ghost use Rattle.std.specs.Prelude.{◌≡◌, ◌≢◌, ◌&&◌, nat_lt, cond, true, false, [], reverse};
ghost use Rattle.std.specs.Prelude.{None as Nothing, Some as Just, MatchOption, IfOk, IfSome};
ghost use Rattle.std.specs.Option.{option_map};
ghost use Rattle.sp_defs.specs.Partition.{IsPartitionOf, IsRegularOf};
ghost use Rattle.sp_laurent.specs.Readable.{IsReadable};
ghost use Rattle.sp_fock.specs.Held.{IsHeld};
ghost use Rattle.sp_llt.specs.Shares.{rank_of};
ghost use Rattle.sp_cert.specs.Grammar.{is_next_share, is_next_entry as next_entry, is_below as below};
ghost use Rattle.sp_cert.specs.Grammar.{has_content as content_of, new_column, with_share, with_entry};
ghost use Rattle.sp_cert.specs.Grammar.{has_no_entry, last_rank as rank_before};
ghost use Rattle.sp_cert.specs.Drafts.{IsHeader, IsBegun, column_of};

use crate::Column;
use crate::contents::is_same_content;
use crate::draft::{Begun, Header};
use sp_fock::Vector;
use sp_laurent::Laurent;
use sp_llt::Share;
use sp_partition::{Items, Partition, rank};
use std::alloc::{AllocError, Global};
use std::cmp::Ordering;

impl Begun {
    /// The column of an e-regular partition, without shares and entries.
    pub(crate) fn new(alloc: Global, header: &Header, mu: Partition) -> Begun
        requires header { IsHeader header.now }
        requires regular { IsRegularOf header.now.e header.now.degree mu }
        ensures column { column_of header.now.degree result ≡ new_column header.now.degree mu }
        ensures begun { IsBegun header.now result }
    {
        Begun {
            mu,
            rank: rank_in(header, &mu),
            shares: Vec::new(alloc),
            entries: Vec::new(alloc),
        }
    }

    /// The column with one share more, or None where it isn't allowed there.
    pub(crate) fn with_share(
        self,
        header: &Header,
        nu: &Partition,
        alpha: Laurent,
    ) -> Result<Option<Begun>, AllocError>
        requires header { IsHeader header.now }
        requires begun { IsBegun header.now self }
        requires partition { IsPartitionOf header.now.degree nu.now }
        requires readable { IsReadable alpha }
        requires nonzero { alpha ≢ [] }
        ensures next { IfOk result (λ next. option_map (column_of header.now.degree) next ≡
            cond (is_next_share header.now.version header.now.e (column_of header.now.degree self) nu.now)
            (Just (with_share header.now.e (column_of header.now.degree self) (nu.now, alpha))) Nothing) }
        ensures begun { IfOk result (λ next. IfSome next (IsBegun header.now)) }
    {
        let Some(rank) = self.next_rank(header, nu) else {
            return Ok(None);
        };
        let mut begun = self;
        begun.shares.push(Share { rank, alpha })?;
        Ok(Some(begun))
    }

    /// The column with one entry more, or None where it isn't allowed there.
    pub(crate) fn with_entry(
        self,
        header: &Header,
        lambda: Partition,
        p: Laurent,
    ) -> Result<Option<Begun>, AllocError>
        requires header { IsHeader header.now }
        requires begun { IsBegun header.now self }
        requires partition { IsPartitionOf header.now.degree lambda }
        requires readable { IsReadable p }
        requires nonzero { p ≢ [] }
        ensures next { IfOk result (λ next. option_map (column_of header.now.degree) next ≡
            cond (next_entry header.now.version header.now.e (column_of header.now.degree self) lambda)
            (Just (with_entry (column_of header.now.degree self) (lambda, p))) Nothing) }
        ensures begun { IfOk result (λ next. IfSome next (IsBegun header.now)) }
    {
        if !self.is_next_entry(header, &lambda) {
            return Ok(None);
        }
        let mut begun = self;
        begun.entries.push((lambda, p))?;
        Ok(Some(begun))
    }

    /// The column that was begun.
    pub(crate) fn finished(self, degree: u8) -> Column
        requires { IsHeld (column_of degree self).entries }
        ensures { result ≡ column_of degree self }
    {
        let Begun {
            mu,
            shares,
            mut entries,
            ..
        } = self;
        entries.reverse();
        Column {
            mu,
            shares: Items::of(shares),
            entries: Vector::from_pairs(degree, entries),
        }
    }

    // The rank of a partition whose share may stand behind those of the column.
    fn next_rank(&self, header: &Header, nu: &Partition) -> Option<usize>
        requires header { IsHeader header.now }
        requires begun { IsBegun header.now self.now }
        requires partition { IsPartitionOf header.now.degree nu.now }
        ensures { MatchOption result
            (is_next_share header.now.version header.now.e (column_of header.now.degree self.now) nu.now ≡ false)
            (λ k. (is_next_share header.now.version header.now.e (column_of header.now.degree self.now) nu.now ≡ true)
            × (k ≡ rank_of header.now.e nu.now)) }
    {
        if !nu.is_regular(header.e) {
            return None;
        }
        let k = rank_in(header, nu);
        if self.is_next_share(header, k, nu) {
            Some(k)
        } else {
            None
        }
    }

    // Whether a share of this rank, that of an e-regular partition, may stand behind those of the column.
    fn is_next_share(&self, header: &Header, k: usize, nu: &Partition) -> bool
        requires { IsHeader header.now }
        ensures { result ≡ (has_no_entry (reverse self.now.entries.items)
            && (nat_lt k (rank_before self.now.rank self.now.shares.items)
            && content_of header.now.version header.now.e self.now.mu nu.now)) }
    {
        self.entries.is_empty() && k < self.last_rank() && has_content(header, &self.mu, nu)
    }

    // The rank of the last share, or that of the column where there is none.
    fn last_rank(&self) -> usize
        ensures { result ≡ rank_before self.now.rank self.now.shares.items }
    {
        match self.shares.last() {
            Some(share) => share.rank,
            None => self.rank,
        }
    }

    // Whether an entry at this partition may stand behind those of the column.
    fn is_next_entry(&self, header: &Header, lambda: &Partition) -> bool
        requires header { IsHeader header.now }
        ensures { result ≡
            next_entry header.now.version header.now.e (column_of header.now.degree self.now) lambda.now }
    {
        is_below(lambda, &self.entries) && has_content(header, &self.mu, lambda)
    }
}

// Whether a partition is less than the last of these.
fn is_below(lambda: &Partition, entries: &[(Partition, Laurent)]) -> bool
    ensures { result ≡ below lambda.now (reverse entries.now) }
{
    match entries.last() {
        Some(last) => lambda.compare_parts(&last.0) == Ordering::Less,
        None => true,
    }
}

// Whether a partition may stand in the column of mu: in version 2 it has its content.
fn has_content(header: &Header, mu: &Partition, lambda: &Partition) -> bool
    requires { IsHeader header.now }
    ensures { result ≡ content_of header.now.version header.now.e mu.now lambda.now }
{
    header.version == 1 || is_same_content(header.e, mu, lambda)
}

// The rank of an e-regular partition.
fn rank_in(header: &Header, mu: &Partition) -> usize
    requires header { IsHeader header.now }
    requires regular { IsRegularOf header.now.e header.now.degree mu.now }
    ensures { result ≡ rank_of header.now.e mu.now }
{
    match rank(&header.regulars, mu) {
        Some(k) => k,
        None => unreachable!(),
    }
}

// A source in memory, which fails at listed calls.
ghost use Rattle.std.specs.Prelude.{◌≡◌, ◌≤◌, ◌<◌, ◌↔◌, [], List, ℕ, Some, length, drop, min, IfOk, IsOk, IsErr};
ghost use Rattle.std.specs.Prelude.{OnOk, OnErr};
ghost use Rattle.sp_base.specs.Bytes.{Reads};
ghost use Rattle.sp_base.specs.Causes.{HasCause, one_more};
ghost use Rattle.sp_base.specs.Memory.{MemorySource, FailsToRead};

use crate::{Failed, Source};
use std::marker::Model;

/// Bytes in memory. A read gives at most `piece` of them, and the calls whose numbers were listed fail.
#[derive(Drop)]
pub struct MemSource {
    bytes: Vec<u8>,
    at: usize,
    piece: usize,
    fail: Vec<u64>,
    calls: u64,
    faults: u64,
}

impl Model for MemSource {
    ghost Value = { MemorySource };

    ghost view = { λ s. record {
      left = drop s.at s.bytes.items;
      piece = s.piece;
      fail = s.fail.items;
      calls = s.calls;
      faults = s.faults;
    } };

    ghost invariant = { λ s. (s.at ≤ length s.bytes.items) × (0 < s.piece) };
}

impl MemSource {
    /// A source of `bytes`, whose calls with the numbers in `fail`, counted from 1, fail.
    pub fn new(bytes: Vec<u8>, piece: usize, fail: Vec<u64>) -> MemSource
        requires { 0 < piece }
        ensures left { result.left ≡ bytes.items }
        ensures piece { result.piece ≡ piece }
        ensures fail { result.fail ≡ fail.items }
        ensures counts { (result.calls ≡ 0) × (result.faults ≡ 0) }
    {
        MemSource {
            bytes,
            at: 0,
            piece,
            fail,
            calls: 0,
            faults: 0,
        }
    }
}

impl Source for MemSource {
    ghost left = { λ s. Some s.left };

    ghost faults = { λ s. s.faults };

    ghost steady = { λ s. s.fail ≡ [] };

    fn read(&mut self, into: &mut [u8]) -> Result<usize, Failed>
        requires { 0 < length into.old }
        ensures bound { IfOk result (λ n. n ≤ length into.new) }
        ensures bytes { Reads (Some self.old.left) (Some self.new.left) into.new result }
        ensures cause { HasCause self.old.faults self.new.faults result }
        ensures calm { self.old.fail ≡ [] →
            IsOk result × (self.new.fail ≡ []) × (self.new.faults ≡ self.old.faults) }

        // Exactly the listed calls fail, and the others give as many bytes as they can.
        ensures fails { IsErr result ↔ FailsToRead self.old }
        ensures count { IfOk result (λ n. n ≡ min self.old.piece (min (length into.old) (length self.old.left))) }

        // The counts rise by one for each call and for each fault.
        ensures calls { self.new.calls ≡ one_more self.old.calls }
        ensures no_fault { OnOk result (self.new.faults ≡ self.old.faults) }
        ensures fault { OnErr result (self.new.faults ≡ one_more self.old.faults) }
        ensures same { (self.new.piece ≡ self.old.piece) × (self.new.fail ≡ self.old.fail) }
    {
        self.calls = self.calls.saturating_add(1);
        if self.fail.contains(&self.calls) {
            self.faults = self.faults.saturating_add(1);
            return Err(Failed);
        }
        let count = self.piece.min(into.len()).min(self.bytes.len() - self.at);
        into[..count].copy_from_slice(&self.bytes[self.at..self.at + count]);
        self.at += count;
        Ok(count)
    }
}

// A sink in memory, which fails at listed calls and where its room is used up.
ghost use Rattle.std.specs.Prelude.{◌≡◌, ◌≤◌, ◌<◌, ◌↔◌, ◌+◌, ◌-◌, [], List, ℕ, Some, length, min, IfOk, IsErr};
ghost use Rattle.std.specs.Prelude.{IsOkAnd, OnOk, OnErr, vec_capacity};
ghost use Rattle.sp_base.specs.Bytes.{Writes};
ghost use Rattle.sp_base.specs.Causes.{HasCause, one_more};
ghost use Rattle.sp_base.specs.Memory.{MemorySink, FailsToWrite};

use crate::{Failed, Sink};
use std::alloc::{AllocError, Global};
use std::marker::Model;

/// Memory for so many bytes. A write takes at most `piece` of them, and the calls whose numbers were listed fail.
#[derive(Drop)]
pub struct MemSink {
    bytes: Vec<u8>,
    room: usize,
    piece: usize,
    fail: Vec<u64>,
    calls: u64,
    faults: u64,
}

impl Model for MemSink {
    ghost Value = { MemorySink };

    ghost view = { λ s. record {
      written = s.bytes.items;
      room = s.room;
      piece = s.piece;
      fail = s.fail.items;
      calls = s.calls;
      faults = s.faults;
    } };

    ghost invariant = { λ s. (length s.bytes.items ≤ s.room) × (s.room ≤ vec_capacity s.bytes) × (0 < s.piece) };
}

impl MemSink {
    /// A sink with room for `room` bytes, whose calls with the numbers in `fail`, counted from 1, fail. All its memory
    /// is taken here.
    pub fn new(
        alloc: Global,
        room: usize,
        piece: usize,
        fail: Vec<u64>,
    ) -> Result<MemSink, AllocError>
        requires { 0 < piece }
        ensures written { IfOk result (λ s. s.written ≡ []) }
        ensures room { IfOk result (λ s. s.room ≡ room) }
        ensures piece { IfOk result (λ s. s.piece ≡ piece) }
        ensures fail { IfOk result (λ s. s.fail ≡ fail.items) }
        ensures counts { IfOk result (λ s. (s.calls ≡ 0) × (s.faults ≡ 0)) }
    {
        Ok(MemSink {
            bytes: Vec::with_capacity(alloc, room)?,
            room,
            piece,
            fail,
            calls: 0,
            faults: 0,
        })
    }

    /// All that was written.
    pub fn bytes(&self) -> &[u8]
        ensures { result.now ≡ self.now.written }
    {
        &self.bytes
    }
}

impl Sink for MemSink {
    ghost written = { λ s. Some s.written };

    ghost faults = { λ s. s.faults };

    ghost steady = { λ s more. (s.fail ≡ []) × (length s.written + more ≤ s.room) };

    fn write(&mut self, from: &[u8]) -> Result<usize, Failed>
        requires { 0 < length from.now }
        ensures bound { IfOk result (λ n. (0 < n) × (n ≤ length from.now)) }
        ensures bytes { Writes (Some self.old.written) (Some self.new.written) from.now result }
        ensures cause { HasCause self.old.faults self.new.faults result }
        ensures calm { (room : ℕ) → 0 < room → (self.old.fail ≡ []) × (length self.old.written + room ≤ self.old.room) →
            IsOkAnd result (λ n. (self.new.fail ≡ []) × (length self.new.written + (room - n) ≤ self.new.room))
            × (self.new.faults ≡ self.old.faults) }

        // Exactly the listed calls fail and those without room, and the others take as many bytes as they can.
        ensures fails { IsErr result ↔ FailsToWrite self.old }
        ensures count { IfOk result (λ n. n ≡ min self.old.piece
            (min (length from.now) (self.old.room - length self.old.written))) }

        // The counts rise by one for each call and for each fault.
        ensures calls { self.new.calls ≡ one_more self.old.calls }
        ensures no_fault { OnOk result (self.new.faults ≡ self.old.faults) }
        ensures fault { OnErr result (self.new.faults ≡ one_more self.old.faults) }
        ensures same { (self.new.room ≡ self.old.room) × (self.new.piece ≡ self.old.piece)
            × (self.new.fail ≡ self.old.fail) }
    {
        self.calls = self.calls.saturating_add(1);
        let room = self.room - self.bytes.len();
        if room == 0 || self.fail.contains(&self.calls) {
            self.faults = self.faults.saturating_add(1);
            return Err(Failed);
        }
        let count = self.piece.min(from.len()).min(room);
        // The memory was taken by `new`.
        self.bytes.extend_from_slice(&from[..count]).unwrap();
        Ok(count)
    }
}

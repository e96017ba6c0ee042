// Std's readers and writers as a source and a sink. They tell no bytes.
ghost use Rattle.std.specs.Prelude.{◌≡◌, ◌≤◌, ◌<◌, ◌-◌, ℕ, None, length, IfOk, IsOk, IsOkAnd, OnOk, OnErr};
ghost use Rattle.std.specs.Io.KnownBytes.{ReadConsumes, WriteAppends};
ghost use Rattle.sp_base.specs.Bytes.{Reads, Writes};
ghost use Rattle.sp_base.specs.Causes.{HasCause, one_more};
ghost use Rattle.sp_base.specs.Standard.{Counted};

use crate::{Failed, Sink, Source};
use std::io::{Read, Write};
use std::marker::Model;

/// A stream of std's that counts its errors: a source over a reader, a sink over a writer. A write that takes no byte
/// counts as an error.
pub struct Counting<T> {
    stream: T,
    faults: u64,
}

/// A reader as a source.
pub type StdSource<R> = Counting<R>;

/// A writer as a sink.
pub type StdSink<W> = Counting<W>;

impl<T> Model for Counting<T> {
    ghost Value = { Counted T };

    ghost view = { λ s. record { stream = s.stream; faults = s.faults } };
}

impl<T: Drop> Drop for Counting<T> {
    fn drop(self) {
        let Counting {
            stream: _,
            faults: _,
        } = self;
    }
}

impl<T> Counting<T> {
    /// A source or a sink over `stream` that has had no fault.
    pub fn new(stream: T) -> Counting<T>
        ensures { result ≡ record { stream = stream; faults = 0 } }
    {
        Counting { stream, faults: 0 }
    }

    fn failed(&mut self) -> Failed
        ensures stream { self.new.stream ≡ self.old.stream }
        ensures faults { self.new.faults ≡ one_more self.old.faults }
        ensures later { self.old.faults ≤ self.new.faults }
    {
        self.faults = self.faults.saturating_add(1);
        Failed
    }
}

impl<R: Read> Source for Counting<R> {
    ghost left = { λ _. None };

    ghost faults = { λ s. s.faults };

    ghost steady = { λ _. ⊥ };

    fn read(&mut self, into: &mut [u8]) -> Result<usize, Failed>
        requires { 0 < length into.old }
        ensures bound { IfOk result (λ n. n ≤ length into.new) }
        ensures bytes { Reads None None into.new result }
        ensures reader { ReadConsumes (R.remaining self.old.stream) (R.remaining self.new.stream) result into.new }
        ensures cause { HasCause self.old.faults self.new.faults result }
        ensures no_fault { OnOk result (self.new.faults ≡ self.old.faults) }
        ensures fault { OnErr result (self.new.faults ≡ one_more self.old.faults) }
    {
        match self.stream.read(into) {
            Ok(count) => Ok(count),
            Err(_) => Err(self.failed()),
        }
    }
}

impl<W: Write> Sink for Counting<W> {
    ghost written = { λ _. None };

    ghost faults = { λ s. s.faults };

    ghost steady = { λ _ _. ⊥ };

    fn write(&mut self, from: &[u8]) -> Result<usize, Failed>
        requires { 0 < length from.now }
        ensures bound { IfOk result (λ n. (0 < n) × (n ≤ length from.now)) }
        ensures bytes { Writes None None from.now result }
        ensures writer { WriteAppends (W.contents self.old.stream) (W.contents self.new.stream) result from.now }
        ensures cause { HasCause self.old.faults self.new.faults result }
        ensures no_fault { OnOk result (self.new.faults ≡ self.old.faults) }
        ensures fault { OnErr result (self.new.faults ≡ one_more self.old.faults) }
    {
        match self.stream.write(from) {
            Ok(count) if count > 0 => Ok(count),
            _ => Err(self.failed()),
        }
    }
}

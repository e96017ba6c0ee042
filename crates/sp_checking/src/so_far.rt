// How far a certificate in the lines of an input has come.
ghost use Rattle.std.specs.Prelude.{◌≡◌, ◌++◌, ◌≤◌, ◌<◌, ◌^◌, IfOk, OnOk};
ghost use Rattle.sp_cert.specs.Grammar.{answer_to};
ghost use Rattle.sp_checking.specs.SoFar.{after, begun, is_end, is_open, line_text, unfinished_text};
ghost use Rattle.sp_checking.specs.SoFar.{behind_answer, behind_malformed, malformed_text, text_by};

use crate::verdict::put_verdict;
use sp_cert::{CertFault, Progress, Reader};
use sp_replies::{Refusal, put_refusal};
use std::alloc::{AllocError, Global};
use std::mem;

/// How far the certificate behind a `check` has come.
#[derive(Drop)]
pub enum Checking {
    /// No certificate was begun, or it has ended.
    Outside,
    /// All lines so far are allowed. The reader takes the next one.
    Inside(Reader),
    /// The line with this number, from 1, is the first that is not allowed. The certificate goes on up to its end.
    Malformed(u64),
}

impl Checking {
    /// A certificate before its first line.
    ///
    /// # Errors
    ///
    /// Want of memory, here and below. In `take_line` and `close` it leaves `out` and the certificate unspecified.
    pub fn begin(alloc: Global) -> Result<Checking, AllocError>
        ensures { IfOk result (λ checking. checking ≡ begun) }
    {
        Ok(Checking::Inside(Reader::new(alloc)?))
    }

    /// Whether the next line belongs to a certificate.
    pub fn is_open(&self) -> bool
        ensures { result ≡ is_open self.now }
    {
        !matches!(self, Checking::Outside)
    }

    /// Takes a line of a certificate, without its newline, and appends its reply. Only the last line has one.
    #[tactic(auto, unfolding(crate::specs::SoFar::after, crate::specs::SoFar::line_text))]
    pub fn take_line(
        &mut self,
        alloc: Global,
        limit: u128,
        line: &[u8],
        out: &mut Vec<u8>,
    ) -> Result<(), AllocError>
        requires least { 1 ≤ limit }
        requires most { limit < 2 ^ 127 }
        ensures text { OnOk result (out.new.items ≡ out.old.items ++ line_text limit self.old line.now) }
        ensures next { OnOk result (self.new ≡ after self.old line.now) }
    {
        match mem::replace(self, Checking::Outside) {
            Checking::Outside => Ok(()),
            Checking::Inside(reader) => self.read(alloc, limit, reader, line, out),
            Checking::Malformed(number) => self.pass(alloc, number, line, out),
        }
    }

    // Takes the line that a reader awaits.
    fn read(
        &mut self,
        alloc: Global,
        limit: u128,
        reader: Reader,
        line: &[u8],
        out: &mut Vec<u8>,
    ) -> Result<(), AllocError>
        requires least { 1 ≤ limit }
        requires most { limit < 2 ^ 127 }
        requires closed { self.old ≡ Checking.Outside }
        ensures text { OnOk result (out.new.items ≡ out.old.items
            ++ text_by limit reader.next line.now (answer_to reader.before line.now)) }
        ensures next { OnOk result
            (self.new ≡ behind_answer reader.next line.now (answer_to reader.before line.now)) }
    {
        match reader.line(line) {
            Ok(Progress::More(reader)) => {
                *self = Checking::Inside(reader);
                Ok(())
            }
            Ok(Progress::Whole(certificate)) => put_verdict(alloc, limit, &certificate, out),
            Err(CertFault::Malformed { line: number }) => self.pass(alloc, number, line, out),
            Err(_) => Err(AllocError),
        }
    }

    // Takes a line of a malformed certificate.
    fn pass(
        &mut self,
        alloc: Global,
        number: u64,
        line: &[u8],
        out: &mut Vec<u8>,
    ) -> Result<(), AllocError>
        requires closed { self.old ≡ Checking.Outside }
        ensures text { OnOk result (out.new.items ≡ out.old.items ++ malformed_text number line.now) }
        ensures next { OnOk result (self.new ≡ behind_malformed number line.now) }
    {
        if line == b"end".as_slice() {
            put_refusal(alloc, &Refusal::Malformed { line: number }, out)
        } else {
            *self = Checking::Malformed(number);
            Ok(())
        }
    }

    /// Appends what a certificate is answered that the input ends in.
    #[tactic(auto, unfolding(crate::specs::SoFar::unfinished_text))]
    pub fn close(&self, alloc: Global, out: &mut Vec<u8>) -> Result<(), AllocError>
        ensures { OnOk result (out.new.items ≡ out.old.items ++ unfinished_text self.now) }
    {
        match self {
            Checking::Outside => Ok(()),
            Checking::Inside(reader) => put_refusal(
                alloc,
                &Refusal::Malformed {
                    line: reader.next_line(),
                },
                out,
            ),
            Checking::Malformed(number) => {
                put_refusal(alloc, &Refusal::Malformed { line: *number }, out)
            }
        }
    }
}

// The reader of certificates, line by line.
ghost use Rattle.std.specs.Prelude.{◌≡◌, IfOk, IfErr};
ghost use Rattle.sp_cert.specs.Grammar.{Nothing, reading};
ghost use Rattle.sp_cert.specs.Told.{IsProgress, IsRefused};

use crate::stages::{Stage, Step};
use crate::{CertFault, Certificate};
use std::alloc::{AllocError, Global};
use std::marker::Model;

/// A certificate of version 1 or 2 that is read line by line.
#[derive(Drop)]
pub struct Reader {
    alloc: Global,
    next: u64,
    stage: Stage,
}

/// What comes of a line that is allowed.
#[derive(Drop)]
pub enum Progress {
    /// More lines are awaited.
    More(Reader),
    /// It was the last one.
    Whole(Certificate),
}

impl Model for Reader {
    ghost use Rattle.sp_cert.specs.Grammar.{Reading, reading};
    ghost use Rattle.sp_cert.specs.Stages.{IsStage, before_of};

    ghost Value = { Reading };

    ghost view = { λ r. reading r.next (before_of r.stage) };

    ghost invariant = { λ r. IsStage r.stage };
}

impl Reader {
    /// Before the first line.
    pub fn new(alloc: Global) -> Result<Reader, AllocError>
        ensures { IfOk result (λ reader. reader ≡ reading 1 Nothing) }
    {
        Ok(Reader {
            alloc,
            next: 1,
            stage: Stage::Nothing,
        })
    }

    /// What comes of the next line, which has no newline.
    ///
    /// `Malformed`, with the number of the line from 1, exactly where the line isn't allowed behind those before it,
    /// and `Whole` exactly at an `end` that is allowed, with the certificate that the lines spell. There is no other
    /// fault but `Memory`.
    pub fn line(self, text: &[u8]) -> Result<Progress, CertFault>
        ensures progress { IfOk result (IsProgress self text.now) }
        ensures refused { IfErr result (IsRefused self text.now) }
    {
        // The number stays within its type: it can't go up only behind more lines than any memory holds.
        let Some(following) = self.next.checked_add(1) else {
            return Err(CertFault::Memory);
        };
        let Reader { alloc, next, stage } = self;
        match stage.with_line(alloc, text) {
            Ok(Step::More(stage)) => Ok(Progress::More(Reader {
                alloc,
                next: following,
                stage,
            })),
            Ok(Step::Whole(certificate)) => Ok(Progress::Whole(certificate)),
            Ok(Step::NotAllowed) => Err(CertFault::Malformed { line: next }),
            Err(_) => Err(CertFault::Memory),
        }
    }

    /// The number of the line that is awaited, from 1.
    pub fn next_line(&self) -> u64
        ensures { result ≡ self.now.next }
    {
        self.next
    }
}

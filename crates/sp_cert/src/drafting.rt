// The lines of a certificate behind the third one.
ghost use Rattle.std.specs.Prelude.{◌≡◌, ◌≤◌, ◌++◌, IfOk, IfSome};
ghost use Rattle.std.specs.List.{AllByRecursion};
ghost use Rattle.std.specs.Option.{option_map};
ghost use Rattle.sp_defs.specs.Partition.{IsRegularOf};
ghost use Rattle.sp_fock.specs.Held.{IsHeld};
ghost use Rattle.sp_partition.specs.declared.TheConstants.{DEGREE_LIMIT};
ghost use Rattle.sp_cert.specs.Grammar.{first_body, share_answer, entry_answer, head_answer, end_answer, column_answer};
ghost use Rattle.sp_cert.specs.Grammar.{term_of as term, three_words as three_of, words};
ghost use Rattle.sp_cert.specs.Grammar.{begun_list, column_begun};
ghost use Rattle.sp_cert.specs.Drafts.{IsHeader, IsDraft, IsBegunOrNone, body_of, column_of, head_of, named};
ghost use Rattle.sp_cert.specs.Drafts.{draft_answer, whole_answer};

use crate::awaited::heads_of;
use crate::draft::{Begun, Draft, Header};
use crate::heads::{Head, is_head};
use crate::terms::term_of;
use crate::words::three_words;
use crate::{Certificate, Column};
use sp_partition::regular_of;
use std::alloc::{AllocError, Global};

impl Draft {
    /// Behind the third line nothing was begun.
    pub(crate) fn new(alloc: Global, version: u8, e: u8, degree: u8) -> Result<Draft, AllocError>
        requires version_least { 1 ≤ version }
        requires version_most { version ≤ 2 }
        requires e_least { 2 ≤ e }
        requires e_most { e ≤ 64 }
        requires degree { degree ≤ DEGREE_LIMIT }
        ensures body { IfOk result (λ draft. body_of draft ≡ first_body version e degree) }
        ensures draft { IfOk result IsDraft }
    {
        let regulars = regular_of(alloc, e, degree)?;
        let heads = heads_of(alloc, version, e, &regulars)?;
        let header = Header {
            version,
            e,
            degree,
            regulars,
        };
        Ok(Draft {
            header,
            heads,
            passed: 0,
            columns: Vec::new(alloc),
            begun: None,
        })
    }

    /// What comes of a line that isn't the end, or None where it isn't allowed.
    pub(crate) fn with_line(self, alloc: Global, text: &[u8]) -> Result<Option<Draft>, AllocError>
        requires { IsDraft self }
        ensures answer { IfOk result (λ next.
            draft_answer next ≡ column_answer (body_of self) text.now (three_of (words text.now))) }
        ensures draft { IfOk result (λ next. IfSome next IsDraft) }
    {
        let Some((first, second, third)) = three_words(text) else {
            return self.with_head(alloc, text);
        };
        if first == b"share".as_slice() {
            self.with_share(alloc, second, third)
        } else if first == b"entry".as_slice() {
            self.with_entry(alloc, second, third)
        } else {
            self.with_head(alloc, text)
        }
    }

    /// The certificate, where no head is awaited.
    pub(crate) fn whole(self) -> Result<Option<Certificate>, AllocError>
        requires { IsDraft self }
        ensures { IfOk result (λ found. whole_answer found ≡ end_answer (body_of self) (body_of self).heads) }
    {
        if self.passed < self.heads.len() {
            return Ok(None);
        }
        let Draft {
            header,
            columns,
            begun,
            ..
        } = self;
        let columns = closed(header.degree, columns, begun)?;
        Ok(Some(Certificate::of(header.version, header.e, header.degree, columns)))
    }

    // A share of the column that was begun last.
    fn with_share(
        self,
        alloc: Global,
        partition: &[u8],
        polynomial: &[u8],
    ) -> Result<Option<Draft>, AllocError>
        requires { IsDraft self }
        ensures answer { IfOk result (λ next. draft_answer next ≡ share_answer (body_of self) (body_of self).begun
            (term self.header.degree partition.now polynomial.now)) }
        ensures draft { IfOk result (λ next. IfSome next IsDraft) }
    {
        let Draft {
            header,
            heads,
            passed,
            columns,
            begun,
        } = self;
        let Some(begun) = begun else {
            return Ok(None);
        };
        let Some((nu, alpha)) = term_of(alloc, header.degree, partition, polynomial)? else {
            return Ok(None);
        };
        let Some(begun) = begun.with_share(&header, &nu, alpha)? else {
            return Ok(None);
        };
        Ok(Some(Draft {
            header,
            heads,
            passed,
            columns,
            begun: Some(begun),
        }))
    }

    // An entry of the column that was begun last.
    fn with_entry(
        self,
        alloc: Global,
        partition: &[u8],
        polynomial: &[u8],
    ) -> Result<Option<Draft>, AllocError>
        requires { IsDraft self }
        ensures answer { IfOk result (λ next. draft_answer next ≡ entry_answer (body_of self) (body_of self).begun
            (term self.header.degree partition.now polynomial.now)) }
        ensures draft { IfOk result (λ next. IfSome next IsDraft) }
    {
        let Draft {
            header,
            heads,
            passed,
            columns,
            begun,
        } = self;
        let Some(begun) = begun else {
            return Ok(None);
        };
        let Some((lambda, p)) = term_of(alloc, header.degree, partition, polynomial)? else {
            return Ok(None);
        };
        let Some(begun) = begun.with_entry(&header, lambda, p)? else {
            return Ok(None);
        };
        Ok(Some(Draft {
            header,
            heads,
            passed,
            columns,
            begun: Some(begun),
        }))
    }

    // The first head that is awaited.
    fn with_head(self, alloc: Global, text: &[u8]) -> Result<Option<Draft>, AllocError>
        requires { IsDraft self }
        ensures answer { IfOk result (λ next.
            draft_answer next ≡ head_answer (body_of self) (body_of self).heads text.now) }
        ensures draft { IfOk result (λ next. IfSome next IsDraft) }
    {
        if self.passed == self.heads.len() {
            return Ok(None);
        }
        let head = self.heads[self.passed];
        if !is_head(alloc, self.header.e, &head, text)? {
            return Ok(None);
        }
        let Draft {
            header,
            heads,
            passed,
            columns,
            begun,
        } = self;
        let columns = closed(header.degree, columns, begun)?;
        let begun = begun_by(alloc, &header, head);
        Ok(Some(Draft {
            header,
            heads,
            passed: passed + 1,
            columns,
            begun,
        }))
    }
}

// All columns that were begun.
fn closed(degree: u8, columns: Vec<Column>, begun: Option<Begun>) -> Result<Vec<Column>, AllocError>
    requires { IfSome begun (λ b. IsHeld (column_of degree b).entries) }
    ensures { IfOk result (λ all. all.items ≡ columns.items ++ begun_list (option_map (column_of degree) begun)) }
{
    let mut all = columns;
    if let Some(begun) = begun {
        all.push(begun.finished(degree))?;
    }
    Ok(all)
}

// The column that begins at a head.
fn begun_by(alloc: Global, header: &Header, head: Head) -> Option<Begun>
    requires header { IsHeader header.now }
    requires regular { AllByRecursion (IsRegularOf header.now.e header.now.degree) (named (head_of head)) }
    ensures column { option_map (column_of header.now.degree) result ≡
        column_begun header.now.degree (head_of head) }
    ensures begun { IsBegunOrNone header.now result }
{
    match head {
        Head::Block(_) => None,
        Head::Column(mu) => Some(Begun::new(alloc, header, mu)),
    }
}

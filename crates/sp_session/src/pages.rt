// Answers that choose a painter or show a grid.
ghost use Rattle.std.specs.Prelude.{◌≡◌, ◌++◌, ◌≤◌, ◌<◌, ◌^◌, OnOk};
ghost use Rattle.sp_replies.specs.Words.{line_of};
ghost use Rattle.sp_session.specs.Pages.{after_shown, choice_text, shown_text};
ghost use Rattle.sp_session.specs.Easel.{choose};
ghost use Rattle.sp_session.specs.Subjects.{IsSubject, table_of};

use crate::easel::{Easel, Remembers};
use crate::fillers::Filler;
use crate::subjects::{Subject, subject_table};
use sp_lang::{Convention, Name};
use sp_replies::{Refusal, put_refusal};
use std::alloc::{AllocError, Global};

/// Chooses the first painter with this name, and names it. Without one the choice stays. An `Err` leaves `out`
/// unspecified, here and below.
pub(crate) fn put_choice(
    alloc: Global,
    easel: &mut Easel,
    name: &Name,
    out: &mut Vec<u8>,
) -> Result<(), AllocError>
    ensures text { OnOk result (out.new.items ≡
        out.old.items ++ choice_text (⟦<Easel as Remembers>⟧.memory easel.old) name.now) }
    ensures next { OnOk result (⟦<Easel as Remembers>⟧.memory easel.new ≡
        choose (⟦<Easel as Remembers>⟧.memory easel.old) name.now) }
{
    if easel.choose(name.as_bytes()) {
        put_name(b"painter ", name.as_bytes(), out)
    } else {
        put_refusal(alloc, &Refusal::UnknownPainter, out)
    }
}

/// A line of a text and a name.
pub(crate) fn put_name(text: &[u8], name: &[u8], out: &mut Vec<u8>) -> Result<(), AllocError>
    ensures { OnOk result (out.new.items ≡ out.old.items ++ line_of (text.now ++ name.now)) }
{
    out.extend_from_slice(text)?;
    out.extend_from_slice(name)?;
    out.extend_from_slice(b"\n")
}

/// A page by the chosen painter in the labels of a convention, or the line that says why there is none.
pub(crate) fn put_page<F: Filler>(
    alloc: Global,
    limit: u128,
    convention: Convention,
    filler: &F,
    easel: &mut Easel,
    subject: &Subject,
    out: &mut Vec<u8>,
) -> Result<(), AllocError>
    requires least { 1 ≤ limit }
    requires most { limit < 2 ^ 127 }
    requires subject { IsSubject subject.now }
    ensures text { OnOk result (out.new.items ≡ out.old.items
        ++ shown_text (⟦<Easel as Remembers>⟧.memory easel.old) (table_of limit convention subject.now)) }
    ensures next { OnOk result (⟦<Easel as Remembers>⟧.memory easel.new ≡
        after_shown (⟦<Easel as Remembers>⟧.memory easel.old) (table_of limit convention subject.now)) }
{
    if easel.is_empty() {
        return put_refusal(alloc, &Refusal::UnknownPainter, out);
    }
    match subject_table(alloc, limit, convention, filler, subject)? {
        Ok(grid) => easel.page(alloc, &grid, out),
        Err(why) => put_refusal(alloc, &why, out),
    }
}

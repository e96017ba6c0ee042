// How far a certificate has come.
ghost use Rattle.std.specs.Prelude.{◌≡◌, ◌≤◌, IfOk};
ghost use Rattle.std.specs.Option.{option_map};
ghost use Rattle.sp_cert.specs.Grammar.{answer_to, body_answer, version_in as version_of, e_in as e_of};
ghost use Rattle.sp_cert.specs.Grammar.{degree_in as degree_of, first_body, Columns, allowed_by};
ghost use Rattle.sp_cert.specs.Drafts.{IsDraft, body_of};
ghost use Rattle.sp_cert.specs.Stages.{IsStage, before_of, step_answer, IsStep};

use crate::Certificate;
use crate::draft::Draft;
use crate::numbers::number_behind;
use sp_partition::DEGREE_LIMIT;
use std::alloc::{AllocError, Global};

/// What the lines so far have said.
#[derive(Drop)]
pub(crate) enum Stage {
    /// There was none.
    Nothing,
    /// The version.
    Version(u8),
    /// The version and e.
    Base(u8, u8),
    /// More than the first three lines say.
    Columns(Draft),
}

/// What comes of a line.
#[derive(Drop)]
pub(crate) enum Step {
    More(Stage),
    Whole(Certificate),
    NotAllowed,
}

impl Stage {
    /// What comes of a line behind those so far.
    pub(crate) fn with_line(self, alloc: Global, text: &[u8]) -> Result<Step, AllocError>
        requires { IsStage self }
        ensures answer { IfOk result (λ step. step_answer step ≡ answer_to (before_of self) text.now) }
        ensures step { IfOk result IsStep }
    {
        match self {
            Stage::Nothing => Ok(behind_none(text)),
            Stage::Version(version) => Ok(behind_version(version, text)),
            Stage::Base(version, e) => behind_base(alloc, version, e, text),
            Stage::Columns(draft) => behind_draft(alloc, draft, text),
        }
    }
}

// The first line.
#[tactic(auto, unfolding(crate::specs::Grammar::answer_to))]
fn behind_none(text: &[u8]) -> Step
    ensures answer { step_answer result ≡ answer_to (before_of Stage.Nothing) text.now }
    ensures step { IsStep result }
{
    match version_in(text) {
        Some(version) => Step::More(Stage::Version(version)),
        None => Step::NotAllowed,
    }
}

// The second line.
#[tactic(auto, unfolding(crate::specs::Grammar::answer_to))]
fn behind_version(version: u8, text: &[u8]) -> Step
    requires version { (1 ≤ version) × (version ≤ 2) }
    ensures answer { step_answer result ≡ answer_to (before_of (Stage.Version version)) text.now }
    ensures step { IsStep result }
{
    match e_in(text) {
        Some(e) => Step::More(Stage::Base(version, e)),
        None => Step::NotAllowed,
    }
}

// The third line.
#[tactic(auto, unfolding(crate::specs::Grammar::answer_to))]
fn behind_base(alloc: Global, version: u8, e: u8, text: &[u8]) -> Result<Step, AllocError>
    requires { IsStage (Stage.Base version e) }
    ensures answer { IfOk result (λ step.
        step_answer step ≡ answer_to (before_of (Stage.Base version e)) text.now) }
    ensures step { IfOk result IsStep }
{
    let Some(degree) = degree_in(version, text) else {
        return Ok(Step::NotAllowed);
    };
    let draft = Draft::new(alloc, version, e, degree)?;
    Ok(Step::More(Stage::Columns(draft)))
}

// A line behind the third.
#[tactic(auto, unfolding(crate::specs::Grammar::answer_to))]
fn behind_draft(alloc: Global, draft: Draft, text: &[u8]) -> Result<Step, AllocError>
    requires { IsDraft draft }
    ensures answer { IfOk result (λ step.
        step_answer step ≡ answer_to (before_of (Stage.Columns draft)) text.now) }
    ensures step { IfOk result IsStep }
{
    if text == b"end".as_slice() {
        return match draft.whole()? {
            Some(certificate) => Ok(Step::Whole(certificate)),
            None => Ok(Step::NotAllowed),
        };
    }
    match draft.with_line(alloc, text)? {
        Some(next) => Ok(Step::More(Stage::Columns(next))),
        None => Ok(Step::NotAllowed),
    }
}

// The version that the first line names.
fn version_in(text: &[u8]) -> Option<u8>
    ensures { result ≡ version_of text.now }
{
    if text == b"certificate 1".as_slice() {
        Some(1)
    } else if text == b"certificate 2".as_slice() {
        Some(2)
    } else {
        None
    }
}

// The e that the second line names.
fn e_in(text: &[u8]) -> Option<u8>
    ensures { result ≡ e_of text.now }
{
    let e = number_behind(b"e", text)?;
    if 2 <= e && e <= 64 { Some(e) } else { None }
}

// The degree that the third line names.
fn degree_in(version: u8, text: &[u8]) -> Option<u8>
    ensures { result ≡ degree_of version text.now }
{
    let n = number_behind(b"degree", text)?;
    let greatest = if version == 1 { 20 } else { DEGREE_LIMIT };
    if n <= greatest { Some(n) } else { None }
}

// The reply to a line that belongs to no certificate.
ghost use Rattle.std.specs.Prelude.{◌≡◌, ◌++◌, ◌≤◌, ◌<◌, ◌^◌, OnOk};
ghost use Rattle.sp_checking.specs.SoFar.{begun};
ghost use Rattle.sp_lang.specs.Given.{IsCommand};
ghost use Rattle.sp_lang.specs.Reading.{reading};
ghost use Rattle.sp_session.specs.Reply.{answer_or_fault, answer_to, certificate_after, certificate_or_same};
ghost use Rattle.sp_session.specs.Reply.{convention_after, convention_or_same, convention_text};
ghost use Rattle.sp_session.specs.Reply.{easel_after, easel_or_same};

use crate::certificates::put_certificate;
use crate::easel::{Easel, Remembers};
use crate::fillers::Filler;
use crate::inverses::put_simple;
use crate::modules::{put_dims, put_schaper};
use crate::pages::{put_choice, put_name, put_page};
use crate::subjects::Subject;
use sp_abacus::abacus_text;
use sp_checking::Checking;
use sp_lang::{Command, Convention, LineFault, read_command};
use sp_nodes::{diagram_text, hooks_text};
use sp_replies::{
    put_blocks, put_branch, put_combined, put_commutator, put_conjugate, put_content, put_core,
    put_dim, put_dominance, put_fault, put_fillings, put_good, put_image, put_induced, put_jantzen,
    put_ladder_vector, put_ladders, put_partitions, put_path, put_product, put_regulars,
    put_restriction, put_row,
};
use std::alloc::{AllocError, Global};

/// Appends the reply to a line: the answer to its command, or its first fault. An `Err` leaves `out`, the painters, the
/// convention and the certificate unspecified.
pub(crate) fn put_reply<F: Filler>(
    alloc: Global,
    limit: u128,
    filler: &F,
    easel: &mut Easel,
    convention: &mut Convention,
    certificate: &mut Checking,
    line: &[u8],
    out: &mut Vec<u8>,
) -> Result<(), AllocError>
    requires least { 1 ≤ limit }
    requires most { limit < 2 ^ 127 }
    ensures text { OnOk result (out.new.items ≡ out.old.items
        ++ answer_or_fault limit convention.old (⟦<Easel as Remembers>⟧.memory easel.old)
        (reading convention.old line.now)) }
    ensures painters { OnOk result (⟦<Easel as Remembers>⟧.memory easel.new ≡
        easel_or_same limit convention.old (⟦<Easel as Remembers>⟧.memory easel.old)
        (reading convention.old line.now)) }
    ensures convention { OnOk result
        (convention.new ≡ convention_or_same convention.old (reading convention.old line.now)) }
    ensures certificate { OnOk result
        (certificate.new ≡ certificate_or_same certificate.old (reading convention.old line.now)) }
{
    match read_command(alloc, *convention, line) {
        Ok(command) => put_answer(
            alloc,
            limit,
            filler,
            easel,
            convention,
            certificate,
            &command,
            out,
        ),
        Err(LineFault::Memory) => Err(AllocError),
        Err(fault) => put_fault(fault, out),
    }
}

// Appends the answer to a command.
#[tactic(auto, unfolding(crate::specs::Reply::answer_to, crate::specs::Reply::easel_after, crate::specs::Reply::convention_after, crate::specs::Reply::certificate_after))]
fn put_answer<F: Filler>(
    alloc: Global,
    limit: u128,
    filler: &F,
    easel: &mut Easel,
    convention: &mut Convention,
    certificate: &mut Checking,
    command: &Command,
    out: &mut Vec<u8>,
) -> Result<(), AllocError>
    requires least { 1 ≤ limit }
    requires most { limit < 2 ^ 127 }
    requires command { IsCommand convention.old command.now }
    ensures text { OnOk result (out.new.items ≡
        out.old.items ++ answer_to limit convention.old (⟦<Easel as Remembers>⟧.memory easel.old) command.now) }
    ensures painters { OnOk result (⟦<Easel as Remembers>⟧.memory easel.new ≡
        easel_after limit convention.old (⟦<Easel as Remembers>⟧.memory easel.old) command.now) }
    ensures convention { OnOk result (convention.new ≡ convention_after convention.old command.now) }
    ensures certificate { OnOk result (certificate.new ≡ certificate_after certificate.old command.now) }
{
    match command {
        Command::Nothing => Ok(()),
        Command::Partitions(n) => put_partitions(alloc, *n, out),
        Command::Regular(e, n) => put_regulars(alloc, *e, *n, out),
        Command::Conjugate(p) => put_conjugate(alloc, p, out),
        Command::Dominates(upper, lower) => put_dominance(upper, lower, out),
        Command::Diagram(e, p) => diagram_text(alloc, *e, p, out),
        Command::Hooks(p) => hooks_text(alloc, p, out),
        Command::Content(e, p) => put_content(alloc, *e, p, out),
        Command::Core(e, p) => put_core(alloc, *e, p, out),
        Command::Combine(e, kappa, quotient) => {
            put_combined(alloc, *e, kappa, quotient.as_slice(), out)
        }
        Command::Abacus(e, p) => abacus_text(alloc, *e, p, out),
        Command::Good(e, p) => put_good(alloc, *e, p, out),
        Command::Path(e, mu) => put_path(alloc, *e, mu, out),
        Command::Mullineux(e, mu) => put_image(alloc, *e, mu, out),
        Command::Induce(e, i, m, p) => put_induced(alloc, limit, *e, *i, *m, p, out),
        Command::Ladders(e, mu) => put_ladders(alloc, *e, mu, out),
        Command::Ladder(e, mu) => put_ladder_vector(alloc, limit, *convention, *e, mu, out),
        Command::Row(e, mu) => put_row(alloc, limit, *convention, *e, mu, out),
        Command::Painter(name) => put_choice(alloc, easel, name, out),
        Command::Crystal(e, n) => {
            let subject = Subject::Crystal(*e, *n);
            put_page(alloc, limit, *convention, filler, easel, &subject, out)
        }
        Command::Decomposition(e, n) => {
            let subject = Subject::Decomposition(*e, *n);
            put_page(alloc, limit, *convention, filler, easel, &subject, out)
        }
        Command::Block(e, kappa, w) => {
            let subject = Subject::Block(*e, *kappa, *w);
            put_page(alloc, limit, *convention, filler, easel, &subject, out)
        }
        Command::Jantzen(e, p) => put_jantzen(alloc, *convention, *e, p, out),
        Command::Schaper(e, n) => put_schaper(alloc, limit, *convention, filler, *e, *n, out),
        Command::Dim(p) => put_dim(alloc, p, out),
        Command::Dims(e, n) => put_dims(alloc, limit, *convention, filler, *e, *n, out),
        Command::Certificate(e, n) => put_certificate(alloc, limit, filler, *e, *n, out),
        Command::Check => begin(alloc, certificate),
        Command::Convention(chosen) => put_convention(convention, *chosen, out),
        Command::Restrict(e, i, p) => put_restriction(alloc, limit, *e, *i, p, out),
        Command::Commutator(e, i, j, p) => put_commutator(alloc, limit, *e, *i, *j, p, out),
        Command::Branch(e, i, mu) => put_branch(alloc, limit, *e, *i, mu, out),
        Command::Product(lambda, mu) => put_product(alloc, lambda, mu, out),
        Command::Fillings(lambda, mu, nu) => put_fillings(alloc, lambda, mu, nu, out),
        Command::Blocks(e, n) => put_blocks(alloc, *e, *n, out),
        Command::Inverse(e, n) => {
            let subject = Subject::Inverse(*e, *n);
            put_page(alloc, limit, *convention, filler, easel, &subject, out)
        }
        Command::Simple(e, mu) => put_simple(alloc, limit, filler, *e, mu, out),
        Command::Cartan(e, n) => {
            let subject = Subject::Cartan(*e, *n);
            put_page(alloc, limit, *convention, filler, easel, &subject, out)
        }
    }
}

// Chooses a convention, and names it.
fn put_convention(
    convention: &mut Convention,
    chosen: Convention,
    out: &mut Vec<u8>,
) -> Result<(), AllocError>
    ensures text { OnOk result (out.new.items ≡ out.old.items ++ convention_text chosen) }
    ensures next { OnOk result (convention.new ≡ chosen) }
{
    *convention = chosen;
    put_name(b"convention ", chosen.name(), out)
}

// Begins a certificate, which is in the lines behind this one.
fn begin(alloc: Global, certificate: &mut Checking) -> Result<(), AllocError>
    ensures { OnOk result (certificate.new ≡ begun) }
{
    *certificate = Checking::begin(alloc)?;
    Ok(())
}

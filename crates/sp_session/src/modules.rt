// Answers on the Specht modules and the simple modules of a degree, in the labels of a convention.
ghost use Rattle.std.specs.Prelude.{◌≡◌, ◌≢◌, ◌++◌, ◌≤◌, ◌<◌, ◌^◌, List, ℕ, Ok, IfOk, OnOk, filter, flat_map};
ghost use Rattle.std.specs.Prelude.{length, reverse};
ghost use Rattle.sp_defs.specs.Partition.{is_regular};
ghost use Rattle.sp_fock_law.specs.Grid.{GridValue};
ghost use Rattle.sp_lang.specs.Convention.{label_in};
ghost use Rattle.sp_matrix.specs.Agreements.{HasAll};
ghost use Rattle.sp_module_defs.specs.Cells.{IsSquareUnitriangular, cell_at};
ghost use Rattle.sp_replies.specs.Labels.{refusal_in as refusal_by};
ghost use Rattle.sp_replies.specs.Refusals.{refusal_line};
ghost use Rattle.sp_replies.specs.declared.refusals.Refusal.TheVariants.{LargeColumn};
ghost use Rattle.sp_session.specs.Modules.{IsSolved, agreement_text, differ_text, dim_at, dims_line, dims_text};
ghost use Rattle.sp_session.specs.Modules.{grid_dims_text, grid_schaper_text, label_line, labels_of, schaper_text};
ghost use Rattle.sp_session.specs.Tables.{crystal_table};

use crate::fillers::Filler;
use crate::tables::crystal_table as crystal_of;
use sp_base::put_number;
use sp_dims::{DimsFault, simple_dims, specht_dim};
use sp_fock::Grid;
use sp_lang::Convention;
use sp_matrix::{Agreement, CompareFault};
use sp_partition::{DEGREE_LIMIT, Partition, all_of, place_in};
use sp_replies::{Refusal, put_named, put_refusal, refusal_in};
use std::alloc::{AllocError, Global};

/// Both dimensions of each column of the matrix of a degree, by descending labels. An `Err` leaves `out` unspecified,
/// here and below.
#[tactic(auto, unfolding(crate::specs::Modules::dims_text))]
pub(crate) fn put_dims<F: Filler>(
    alloc: Global,
    limit: u128,
    convention: Convention,
    filler: &F,
    e: u8,
    n: u8,
    out: &mut Vec<u8>,
) -> Result<(), AllocError>
    requires least { 1 ≤ limit }
    requires most { limit < 2 ^ 127 }
    requires e_least { 2 ≤ e }
    requires e_most { e ≤ 64 }
    requires small { n ≤ DEGREE_LIMIT }
    ensures text { OnOk result (out.new.items ≡ out.old.items ++ dims_text limit convention e n) }

    // Where no column is refused, the text tells the only list of numbers that solves the equations.
    ensures solved { OnOk result ((grid : GridValue) → crystal_table limit e n ≡ Ok grid →
        IsSolved limit convention (labels_of convention e n) grid (dims_text limit convention e n)) }
{
    match crystal_of(alloc, limit, filler, e, n)? {
        Ok(grid) => {
            let labels = descending_labels(alloc, convention, e, n)?;
            put_grid_dims(alloc, limit, convention, &labels, &grid, out)
        }
        Err(why) => put_refusal(alloc, &refusal_in(convention, &why), out),
    }
}

// The labels of the simple modules of a degree, descending.
fn descending_labels(
    alloc: Global,
    convention: Convention,
    e: u8,
    n: u8,
) -> Result<Vec<Partition>, AllocError>
    requires e_least { 2 ≤ e }
    requires small { n ≤ DEGREE_LIMIT }
    ensures { IfOk result (λ labels. labels.items ≡ labels_of convention e n) }
{
    let partitions = all_of(alloc, n)?;
    labels_among(alloc, convention, e, &partitions)
}

// Those of the ascending partitions that are labels, descending.
fn labels_among(
    alloc: Global,
    convention: Convention,
    e: u8,
    partitions: &[Partition],
) -> Result<Vec<Partition>, AllocError>
    requires { 2 ≤ e }
    ensures { IfOk result (λ labels. labels.items ≡
        filter (λ p. is_regular e (label_in convention p)) (reverse partitions.now)) }
{
    let mut labels = Vec::new(alloc);
    for k in (0..partitions.len()).rev() {
        let p = &partitions[k];
        if convention.label(p).is_regular(e) {
            labels.push(*p)?;
        }
    }
    Ok(labels)
}

fn put_grid_dims(
    alloc: Global,
    limit: u128,
    convention: Convention,
    labels: &[Partition],
    grid: &Grid,
    out: &mut Vec<u8>,
) -> Result<(), AllocError>
    requires least { 1 ≤ limit }
    requires most { limit < 2 ^ 127 }
    requires triangular { IsSquareUnitriangular grid.now.columns (cell_at grid.now) }
    ensures text { OnOk result (out.new.items ≡
        out.old.items ++ grid_dims_text limit convention labels.now grid.now) }
    ensures solved { OnOk result (IsSolved limit convention labels.now grid.now
        (grid_dims_text limit convention labels.now grid.now)) }
{
    let _held = grid.degree();
    match simple_dims(alloc, grid, limit) {
        Ok(dims) => put_grid_dims_lines(alloc, convention, labels, grid, &dims, out),
        Err(fault) => put_dims_fault(alloc, convention, &fault, out),
    }
}

fn put_dims_fault(
    alloc: Global,
    convention: Convention,
    fault: &DimsFault,
    out: &mut Vec<u8>,
) -> Result<(), AllocError>
    ensures line { OnOk result ((at : List ℕ) → fault.now ≡ DimsFault.TooLarge at →
        out.new.items ≡ out.old.items ++ refusal_line (refusal_by convention (LargeColumn at))) }
    ensures memory { OnOk result (fault.now ≢ DimsFault.Memory) }
{
    match fault {
        DimsFault::TooLarge { at } => put_large_column(alloc, convention, at, out),
        DimsFault::Memory => Err(AllocError),
    }
}

fn put_large_column(
    alloc: Global,
    convention: Convention,
    at: &Partition,
    out: &mut Vec<u8>,
) -> Result<(), AllocError>
    ensures { OnOk result (out.new.items ≡
        out.old.items ++ refusal_line (refusal_by convention (LargeColumn at.now))) }
{
    let why = Refusal::LargeColumn { column: *at };
    put_refusal(alloc, &refusal_in(convention, &why), out)
}

fn put_grid_dims_lines(
    alloc: Global,
    convention: Convention,
    labels: &[Partition],
    grid: &Grid,
    dims: &[i128],
    out: &mut Vec<u8>,
) -> Result<(), AllocError>
    requires { length dims.now ≡ length grid.now.columns }
    ensures { OnOk result (out.new.items ≡
        out.old.items ++ flat_map (label_line convention grid.now.columns dims.now) labels.now) }
{
    put_dims_lines(alloc, convention, labels, grid.columns(), dims, out)
}

fn put_dims_lines(
    alloc: Global,
    convention: Convention,
    labels: &[Partition],
    columns: &[Partition],
    dims: &[i128],
    out: &mut Vec<u8>,
) -> Result<(), AllocError>
    requires { length dims.now ≡ length columns.now }
    ensures { OnOk result (out.new.items ≡
        out.old.items ++ flat_map (label_line convention columns.now dims.now) labels.now) }
{
    for label in labels {
        put_label_line(alloc, convention, label, columns, dims, out)?;
    }
    Ok(())
}

fn put_label_line(
    alloc: Global,
    convention: Convention,
    label: &Partition,
    columns: &[Partition],
    dims: &[i128],
    out: &mut Vec<u8>,
) -> Result<(), AllocError>
    requires { length dims.now ≡ length columns.now }
    ensures { OnOk result (out.new.items ≡
        out.old.items ++ label_line convention columns.now dims.now label.now) }
{
    let mu = convention.label(label);
    put_dims_line(
        alloc,
        label,
        specht_dim(&mu),
        dim_of(columns, dims, &mu),
        out,
    )
}

// The dimension for a column, and 0 where it isn't there.
fn dim_of(columns: &[Partition], dims: &[i128], mu: &Partition) -> i128
    requires { length dims.now ≡ length columns.now }
    ensures { result ≡ dim_at columns.now dims.now mu.now }
{
    match place_in(columns, mu) {
        Some(place) => dims[place],
        None => 0,
    }
}

fn put_dims_line(
    alloc: Global,
    label: &Partition,
    specht: u128,
    simple: i128,
    out: &mut Vec<u8>,
) -> Result<(), AllocError>
    requires { specht < 2 ^ 127 }
    ensures { OnOk result (out.new.items ≡ out.old.items ++ dims_line label.now specht simple) }
{
    label.print(alloc, out)?;
    out.extend_from_slice(b" ")?;
    put_number(alloc, out, specht as i128)?;
    out.extend_from_slice(b" ")?;
    put_number(alloc, out, simple)?;
    out.extend_from_slice(b"\n")
}

/// How far the matrix of a degree agrees with the Jantzen sums.
#[tactic(auto, unfolding(crate::specs::Modules::schaper_text))]
pub(crate) fn put_schaper<F: Filler>(
    alloc: Global,
    limit: u128,
    convention: Convention,
    filler: &F,
    e: u8,
    n: u8,
    out: &mut Vec<u8>,
) -> Result<(), AllocError>
    requires least { 1 ≤ limit }
    requires most { limit < 2 ^ 127 }
    requires e_least { 2 ≤ e }
    requires e_most { e ≤ 64 }
    requires small { n ≤ DEGREE_LIMIT }
    ensures { OnOk result (out.new.items ≡ out.old.items ++ schaper_text limit convention e n) }
{
    match crystal_of(alloc, limit, filler, e, n)? {
        Ok(grid) => put_grid_schaper(alloc, limit, convention, filler, e, &grid, out),
        Err(why) => put_refusal(alloc, &refusal_in(convention, &why), out),
    }
}

fn put_grid_schaper<F: Filler>(
    alloc: Global,
    limit: u128,
    convention: Convention,
    filler: &F,
    e: u8,
    grid: &Grid,
    out: &mut Vec<u8>,
) -> Result<(), AllocError>
    requires least { 1 ≤ limit }
    requires most { limit < 2 ^ 127 }
    requires e_least { 2 ≤ e }
    requires e_most { e ≤ 64 }
    requires all { HasAll e grid.now }
    ensures { OnOk result (out.new.items ≡ out.old.items ++ grid_schaper_text limit convention e grid.now) }
{
    match filler.compare(alloc, e, grid, limit) {
        Ok(agreement) => put_agreement(alloc, convention, &agreement, out),
        Err(CompareFault::TooLarge) => put_refusal(alloc, &Refusal::TooLarge, out),
        Err(CompareFault::Memory) => Err(AllocError),
    }
}

fn put_agreement(
    alloc: Global,
    convention: Convention,
    agreement: &Agreement,
    out: &mut Vec<u8>,
) -> Result<(), AllocError>
    ensures { OnOk result (out.new.items ≡ out.old.items ++ agreement_text convention agreement.now) }
{
    out.extend_from_slice(b"agree ")?;
    put_number(alloc, out, agreement.agreeing as i128)?;
    out.extend_from_slice(b" of ")?;
    put_number(alloc, out, agreement.total as i128)?;
    out.extend_from_slice(b"\n")?;
    put_differ(alloc, convention, &agreement.first, out)
}

// The greatest line that doesn't agree, if there is one.
fn put_differ(
    alloc: Global,
    convention: Convention,
    first: &Option<Partition>,
    out: &mut Vec<u8>,
) -> Result<(), AllocError>
    ensures { OnOk result (out.new.items ≡ out.old.items ++ differ_text convention first.now) }
{
    match first {
        None => Ok(()),
        Some(lambda) => put_named(alloc, b"differ at ", &convention.label(lambda), out),
    }
}

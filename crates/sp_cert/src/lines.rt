// The lines of a certificate.
ghost use Rattle.std.specs.Prelude.{◌≡◌, ◌++◌, ◌≤◌, codes, OnOk};
ghost use Rattle.std.specs.Fmt.{decimal};
ghost use Rattle.sp_defs.specs.Text.{partition_text};
ghost use Rattle.sp_cert.specs.Texts.{number_line, counts_text, block_line, column_line, term_line};

use itoa::Buffer;
use sp_laurent::Laurent;
use sp_nodes::content;
use sp_partition::Partition;
use std::alloc::{AllocError, Global};

// Appends a word and a number, as a line.
pub(crate) fn put_number_line(word: &[u8], number: u8, out: &mut Vec<u8>) -> Result<(), AllocError>
    ensures { OnOk result (out.new.items ≡ out.old.items ++ number_line word.now number) }
{
    out.extend_from_slice(word)?;
    out.extend_from_slice(b" ")?;
    put_number(number, out)?;
    out.push(b'\n')?;
    Ok(())
}

fn put_number(number: u8, out: &mut Vec<u8>) -> Result<(), AllocError>
    ensures { OnOk result (out.new.items ≡ out.old.items ++ decimal number) }
{
    let mut digits = Buffer::new();
    out.extend_from_slice(digits.format(number).as_bytes())
}

// Appends the line before the block of a partition.
pub(crate) fn put_block_line(e: u8, mu: &Partition, out: &mut Vec<u8>) -> Result<(), AllocError>
    requires e_least { 2 ≤ e }
    requires e_most { e ≤ 64 }
    ensures { OnOk result (out.new.items ≡ out.old.items ++ block_line e mu.now) }
{
    put_block(e, mu, out)?;
    out.push(b'\n')?;
    Ok(())
}

// The same, without its newline.
pub(crate) fn put_block(e: u8, mu: &Partition, out: &mut Vec<u8>) -> Result<(), AllocError>
    requires e_least { 2 ≤ e }
    requires e_most { e ≤ 64 }
    ensures { OnOk result (out.new.items ≡ out.old.items ++ (codes "block" ++ counts_text e mu.now)) }
{
    out.extend_from_slice(b"block")?;
    let counts = content(e, mu);
    for count in counts.as_slice() {
        out.extend_from_slice(b" ")?;
        put_number(*count, out)?;
    }
    Ok(())
}

// Appends the line that names a column.
pub(crate) fn put_column_line(
    alloc: Global,
    mu: &Partition,
    out: &mut Vec<u8>,
) -> Result<(), AllocError>
    ensures { OnOk result (out.new.items ≡ out.old.items ++ column_line mu.now) }
{
    put_column(alloc, mu, out)?;
    out.push(b'\n')?;
    Ok(())
}

// The same, without its newline.
pub(crate) fn put_column(alloc: Global, mu: &Partition, out: &mut Vec<u8>) -> Result<(), AllocError>
    ensures { OnOk result (out.new.items ≡ out.old.items ++ (codes "column " ++ partition_text mu.now)) }
{
    out.extend_from_slice(b"column ")?;
    mu.print(alloc, out)?;
    Ok(())
}

// Appends a word, a partition and a polynomial, as a line.
pub(crate) fn put_term_line(
    alloc: Global,
    word: &[u8],
    lambda: &Partition,
    p: &Laurent,
    out: &mut Vec<u8>,
) -> Result<(), AllocError>
    ensures { OnOk result (out.new.items ≡ out.old.items ++ term_line word.now lambda.now p.now) }
{
    out.extend_from_slice(word)?;
    lambda.print(alloc, out)?;
    out.extend_from_slice(b" ")?;
    p.print(alloc, out)?;
    out.push(b'\n')?;
    Ok(())
}

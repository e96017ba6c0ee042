// The lines that are made from a number, for a run that reads no input.
ghost use Rattle.std.specs.Prelude.{◌≡◌, ◌+◌, ◌<◌, ◌^◌, ◌++◌, IfOk, OnOk, decimal};
ghost use Rattle.sp_words.specs.Generated.{draw, generated_text, kind_of, line_behind, line_text, next_number, word_of};

use itoa::Buffer;
use std::alloc::{AllocError, Global};

/// How many lines are made.
const LINE_COUNT: usize = 200;

/// The command of a line.
#[derive(Clone, Copy)]
pub enum Kind {
    Crystal,
    Decomposition,
    Dims,
    Certificate,
}

/// A line that asks for a matrix of degree n.
#[derive(Clone, Copy)]
pub struct Line {
    kind: Kind,
    e: u8,
    n: u8,
}

/// The 200 lines that are made from `start`, each with its newline.
pub fn generated(alloc: Global, start: u32) -> Result<Vec<u8>, AllocError>
    requires { start < 2 ^ 31 }
    ensures { IfOk result (λ text. text.items ≡ generated_text start) }
{
    let mut out = Vec::new(alloc);
    let mut number = start;
    for line in 0..LINE_COUNT {
        put_line(line_after(number), &mut out)?;
        number = next(next(next(number)));
    }
    Ok(out)
}

// The number behind another one.
fn next(number: u32) -> u32
    requires { number < 2 ^ 31 }
    ensures next { result ≡ next_number number }
    ensures small { result < 2 ^ 31 }
{
    ((u64::from(number) * 1_103_515_245 + 12_345) % 2_147_483_648) as u32
}

// The line that the three numbers behind this one say.
fn line_after(number: u32) -> Line
    requires { number < 2 ^ 31 }
    ensures { result ≡ line_behind number }
{
    let first = next(number);
    let second = next(first);
    let third = next(second);
    Line {
        kind: kind_from(drawn(first) % 4),
        e: 2 + (drawn(second) % 5) as u8,
        n: 6 + (drawn(third) % 5) as u8,
    }
}

fn drawn(number: u32) -> u32
    ensures { result ≡ draw number }
{
    number / 65_536
}

fn kind_from(number: u32) -> Kind
    ensures { result ≡ kind_of number }
{
    match number {
        0 => Kind::Crystal,
        1 => Kind::Decomposition,
        2 => Kind::Dims,
        _ => Kind::Certificate,
    }
}

impl Kind {
    fn word(self) -> &'static str
        ensures { result.now ≡ word_of self }
    {
        match self {
            Kind::Crystal => "crystal",
            Kind::Decomposition => "decomposition",
            Kind::Dims => "dims",
            Kind::Certificate => "certificate",
        }
    }
}

fn put_line(line: Line, out: &mut Vec<u8>) -> Result<(), AllocError>
    ensures { OnOk result (out.new.items ≡ out.old.items ++ line_text line) }
{
    out.extend_from_slice(line.kind.word().as_bytes())?;
    out.push(b' ')?;
    put_number(line.e, out)?;
    out.push(b' ')?;
    put_number(line.n, out)?;
    out.push(b'\n')?;
    Ok(())
}

fn put_number(value: u8, out: &mut Vec<u8>) -> Result<(), AllocError>
    ensures { OnOk result (out.new.items ≡ out.old.items ++ decimal value) }
{
    let mut buffer = Buffer::new();
    out.extend_from_slice(buffer.format(value).as_bytes())?;
    Ok(())
}

// Reads the text of a partition.
ghost use Rattle.std.specs.Prelude.{◌≡◌, ◌↔◌, ℕ, ◌+◌, ◌*◌, ◌<◌, ◌≤◌, ◌^◌, List, length, min};
ghost use Rattle.std.specs.Prelude.{IfOk, IfSome, IsNone, IsTrue};
ghost use Rattle.std.specs.Option.{option_copied};
ghost use Rattle.std.specs.Str.Parse.{digits_value};
ghost use Rattle.sp_defs.specs.Partition.{degree as degree_of, IsPartition};
ghost use Rattle.sp_defs.specs.Text.{partition_text};
ghost use Rattle.sp_partition.specs.Reading.{partition_of, list_of, item_of, cut, inner as inner_of, parsed};
ghost use Rattle.sp_partition.specs.Pieces.{IsNumber, StandsAt, IsItemOf, DigitsAt, MayAdd, Adds, rest_of};
ghost use Rattle.sp_partition.specs.Held.{IsHeld};

use crate::{CAPACITY, NotPartition, Partition};

// An item of a list: the digits of its part, and how often the part stands there, at most 255.
#[derive(Clone, Copy)]
struct Item<'a> {
    part: &'a [u8],
    times: u8,
}

impl Partition {
    /// The partition that the text stands for.
    ///
    /// The text is `-`, or a list, or a list between `(` and `)`. A list is items with commas between, without spaces.
    /// An item is a part, or a part, `^` and how often it stands there. Each number is of at least 1, of any length,
    /// and without leading zeros. The parts decrease weakly.
    ///
    /// `Shape` where the text stands for no partition, `PastCapacity` where it stands for one past `CAPACITY`.
    pub fn parse(text: &[u8]) -> Result<Partition, NotPartition>
        ensures reads { result ≡ parsed (partition_of text.now) }
        ensures held { IfOk result IsHeld }
        ensures partition { (p : List ℕ) → partition_of text.now ≡ Some p → IsPartition p }
        ensures canonical { (p : List ℕ) → IsHeld p → text.now ≡ partition_text p → result ≡ Ok p }
        ensures printed { (p : List ℕ) → IsPartition p → degree_of p < 2 ^ 64 → text.now ≡ partition_text p →
            partition_of text.now ≡ Some p }
    {
        if text == b"-".as_slice() {
            return Ok(Partition::empty());
        }
        read_list(inner(text))
    }
}

// The text between its parentheses, where it has both.
fn inner(text: &[u8]) -> &[u8]
    ensures { result.now ≡ inner_of text.now }
{
    if text.starts_with(b"(") && text.ends_with(b")") {
        &text[1..text.len() - 1]
    } else {
        text
    }
}

fn read_list(text: &[u8]) -> Result<Partition, NotPartition>
    ensures { result ≡ parsed (list_of text.now) }
{
    let mut held = Some(Partition::empty());
    let mut last = None;
    let mut rest = Some(text);
    while let Some(items) = rest {
        let end = place(items, b',');
        let Some(item) = read_item(&items[..end]) else {
            return Err(NotPartition::Shape);
        };
        if !follows(last, item.part) {
            return Err(NotPartition::Shape);
        }
        held = extended(held, item);
        last = Some(item.part);
        rest = behind(items, end);
    }
    held.ok_or(NotPartition::PastCapacity)
}

// The parts so far with those of the item, where there is room.
fn extended(held: Option<Partition>, item: Item) -> Option<Partition>
    requires number { IsNumber item.part.now (digits_value 10 item.part.now) }
    requires falls { IfSome held (MayAdd (min (digits_value 10 item.part.now) 255) item.times) }
    ensures { Adds held (min (digits_value 10 item.entry.part.now) 255) item.entry.times result }
{
    held?.with_run(value(item.part), item.times)
}

// Whether the part may stand after the last one.
fn follows(last: Option<&[u8]>, part: &[u8]) -> bool
    requires part { IsNumber part.now (digits_value 10 part.now) }
    requires last { IfSome last (λ digits. IsNumber digits.now (digits_value 10 digits.now)) }
    ensures { IsTrue result ↔ IfSome last.entry (λ digits. digits_value 10 part.now ≤ digits_value 10 digits.now) }
{
    match last {
        None => true,
        Some(digits) => !is_less(digits, part),
    }
}

fn read_item(text: &[u8]) -> Option<Item<'_>>
    ensures none { IsNone result → item_of (cut 94 text.now) ≡ None }
    ensures item { IfSome result (λ item. IsItemOf text.now item.part.now item.times) }
{
    let end = place(text, b'^');
    let part = &text[..end];
    if !is_number(part) {
        return None;
    }
    if end == text.len() {
        return Some(Item { part, times: 1 });
    }
    let exponent = &text[end + 1..];
    if !is_number(exponent) {
        return None;
    }
    Some(Item {
        part,
        times: value(exponent),
    })
}

// Where the mark stands first, or the length where it doesn't.
fn place(text: &[u8], mark: u8) -> usize
    ensures { StandsAt mark text.now result }
{
    text.iter()
        .position(|byte| *byte == mark)
        .unwrap_or(text.len())
}

// What is left behind the mark at `end`.
fn behind(text: &[u8], end: usize) -> Option<&[u8]>
    requires { end ≤ length text.now }
    ensures { option_copied result ≡ rest_of text.now end }
{
    if end == text.len() {
        None
    } else {
        Some(&text[end + 1..])
    }
}

// Whether these are the digits of a number of at least 1.
fn is_number(text: &[u8]) -> bool
    ensures { IsTrue result ↔ IsNumber text.now (digits_value 10 text.now) }
{
    !text.is_empty() && text[0] != b'0' && are_digits(text)
}

fn are_digits(text: &[u8]) -> bool
    ensures { IsTrue result ↔ DigitsAt text.now }
{
    text.iter().all(|byte| b'0' <= *byte && *byte <= b'9')
}

// The number that the digits write, or 255 where it is greater.
fn value(digits: &[u8]) -> u8
    requires { IsNumber digits.now (digits_value 10 digits.now) }
    ensures { result ≡ min (digits_value 10 digits.now) 255 }
{
    let mut value = 0u8;
    for digit in digits {
        value = value.saturating_mul(10).saturating_add(*digit - b'0');
    }
    value
}

// Whether the first number is less. The longer one is the greater, and among those of one length the bytes decide.
fn is_less(lesser: &[u8], greater: &[u8]) -> bool
    requires lesser { IsNumber lesser.now (digits_value 10 lesser.now) }
    requires greater { IsNumber greater.now (digits_value 10 greater.now) }
    ensures { IsTrue result ↔ (digits_value 10 lesser.now < digits_value 10 greater.now) }
{
    if lesser.len() == greater.len() {
        lesser < greater
    } else {
        lesser.len() < greater.len()
    }
}

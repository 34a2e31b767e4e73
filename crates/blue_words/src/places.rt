// The places of a line: the words that are numbers, names and files.
// Choice: docs/DECISIONS.md#left-to-right
ghost use Rattle.std.specs.Prelude.{◌≡◌, ◌≤◌, ◌^◌, length, IsTrue, IfOk, pos, neg_ℤ, Ok, Err};
ghost use Rattle.elem_core.specs.Line.{has_no_lf};
ghost use Rattle.blue_words.specs.Reading.{both};
ghost use Rattle.blue_words.specs.Numbers.{read_count, read_int, read_fitting, read_name, read_file_name};

use crate::fault::{BlueKind, PlaceValue};
use crate::names::{is_file_name, is_name};
use crate::numerals::numeral;
use elem_core::line::Line;
use std::alloc::{AllocError, Global};

/// A number of 64 bits: 1 to 20 digits, else `BadNumber`.
pub fn count_place(word: &[u8]) -> PlaceValue<u64>
    ensures { result ≡ read_count 64 word.now }
{
    match numeral(word) {
        Some(value) if value < 1 << 64 => Ok(value as u64),
        _ => Err(BlueKind::BadNumber),
    }
}

/// A number of 32 bits, of 1 to 20 digits, else `BadNumber`.
pub fn size_place(word: &[u8]) -> PlaceValue<u32>
    ensures { result ≡ read_count 32 word.now }
{
    match numeral(word) {
        Some(value) if value < 1 << 32 => Ok(value as u32),
        _ => Err(BlueKind::BadNumber),
    }
}

/// A number of 64 bits with a sign: an optional `-` and 1 to 20 digits, else `BadNumber`.
pub fn int_place(word: &[u8]) -> PlaceValue<i64>
    ensures { result ≡ read_int word.now }
{
    if let Some((b'-', digits)) = word.split_first() {
        match numeral(digits) {
            Some(value) => below_zero(value),
            None => Err(BlueKind::BadNumber),
        }
    } else {
        match numeral(word) {
            Some(value) => above_zero(value),
            None => Err(BlueKind::BadNumber),
        }
    }
}

fn below_zero(value: u128) -> PlaceValue<i64>
    ensures { result ≡ read_fitting (neg_ℤ (pos value)) }
{
    if value == 0 {
        Ok(0)
    } else if value <= 1 << 63 {
        Ok(-1 - (value - 1) as i64)
    } else {
        Err(BlueKind::BadNumber)
    }
}

fn above_zero(value: u128) -> PlaceValue<i64>
    ensures { result ≡ read_fitting (pos value) }
{
    if value < 1 << 63 {
        Ok(value as i64)
    } else {
        Err(BlueKind::BadNumber)
    }
}

/// Two values, or what is wrong with the first that has a fault.
pub fn both<A: Drop, B: Drop>(first: PlaceValue<A>, second: PlaceValue<B>) -> PlaceValue<(A, B)>
    ensures { result ≡ both first second }
{
    match first {
        Ok(a) => match second {
            Ok(b) => Ok((a, b)),
            Err(kind) => Err(kind),
        },
        Err(kind) => Err(kind),
    }
}

/// A name, else `BadName`.
#[tactic(auto, using(crate::proofs::Plain::no_lf_from_name))]
pub fn name_place(alloc: Global, word: &[u8]) -> Result<PlaceValue<Line>, AllocError>
    ensures { IfOk result (λ p. p ≡ read_name word.now) }
{
    if is_name(word) {
        Ok(Ok(line_of(alloc, word)?))
    } else {
        Ok(Err(BlueKind::BadName))
    }
}

/// A file name, else `BadName`.
#[tactic(auto, using(crate::proofs::Plain::no_lf_from_file))]
pub fn file_place(alloc: Global, word: &[u8]) -> Result<PlaceValue<Line>, AllocError>
    ensures { IfOk result (λ p. p ≡ read_file_name word.now) }
{
    if is_file_name(word) {
        Ok(Ok(line_of(alloc, word)?))
    } else {
        Ok(Err(BlueKind::BadName))
    }
}

/// A line of its own with the bytes of a word.
pub fn line_of(alloc: Global, word: &[u8]) -> Result<Line, AllocError>
    requires short { length word.now ≤ 1024 }
    requires no_lf { IsTrue (has_no_lf word.now) }
    ensures { IfOk result (λ l. l ≡ word.now) }
{
    let bytes = word.to_vec(alloc)?;
    Ok(Line::of(bytes))
}

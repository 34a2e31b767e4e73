// The words of a line, one after another.
ghost use Rattle.std.specs.Prelude.{◌≡◌, ◌≤◌, ◌<◌, ◌==◌, ◌↔◌, [], ◌∷◌, length, IsTrue, IfSome, IfOk, MatchOption, if◌then◌else◌, Ok};
ghost use Rattle.std.specs.Str.{bytes_eq};
ghost use Rattle.elem_core.specs.Text.{words};
ghost use Rattle.elem_core.specs.Line.{has_no_lf};
ghost use Rattle.blue_words.specs.Line.{is_plain};
ghost use Rattle.blue_words.specs.Reading.{Reads, begins_with, word, name, file, int, count, size};

use crate::fault::{FormEnd, PlaceValue};
use crate::places::{count_place, file_place, int_place, line_of, name_place, size_place};
use elem_core::line::Line;
use elem_core::word::next_word;
use std::alloc::Global;
use std::marker::Model;

/// The words of a line that are left to be read.
#[derive(Drop)]
pub struct Words<'a> {
    rest: &'a [u8],
}

impl<'a> Model for Words<'a> {
    ghost use Rattle.std.specs.Prelude.{ℕ, List, length, ◌≤◌, IsTrue};

    ghost Value = { List (List ℕ) };

    ghost use Rattle.elem_core.specs.Text.{words};
    ghost use Rattle.blue_words.specs.Line.{is_plain};

    ghost view = { λ w. words w.rest.now };

    ghost invariant = { λ w. (length w.rest.now ≤ 1024) × IsTrue (is_plain w.rest.now) };
}

impl<'a> Words<'a> {
    /// The words of a line. It takes no memory.
    pub fn of(line: &'a [u8]) -> Words<'a>
        requires short { length line.now ≤ 1024 }
        requires plain { IsTrue (is_plain line.now) }
        ensures { result ≡ words line.now }
    {
        Words { rest: line }
    }

    /// The next word.
    #[tactic(auto, using(crate::proofs::Plain::no_lf_from_plain))]
    pub fn next(&mut self) -> Option<&'a [u8]>
        ensures value { MatchOption result ((self.old ≡ []) × (self.new ≡ [])) (λ w. self.old ≡ w.now ∷ self.new) }
        ensures short { IfSome result (λ w. length w.now ≤ 1024) }
        ensures no_lf { IfSome result (λ w. IsTrue (has_no_lf w.now)) }
    {
        match next_word(self.rest) {
            Some((word, rest)) => {
                self.rest = rest;
                Some(word)
            }
            None => None,
        }
    }

    /// Whether the next word is this one; then it is passed.
    #[tactic(auto, using(crate::proofs::Plain::no_lf_from_plain))]
    pub fn skip(&mut self, fixed: &[u8]) -> bool
        ensures value { result ≡ begins_with fixed.now self.old }
        ensures left { self.old ≡ (if result then fixed.now ∷ self.new else self.new) }
    {
        match next_word(self.rest) {
            Some((word, rest)) if word == fixed => {
                self.rest = rest;
                true
            }
            _ => false,
        }
    }

    /// Whether no word is left.
    #[tactic(auto, using(crate::proofs::Plain::no_lf_from_plain))]
    pub fn is_empty(&self) -> bool
        ensures { IsTrue result ↔ (self.now ≡ []) }
    {
        next_word(self.rest).is_none()
    }

    /// The next word, whatever it is, for a value that keeps it.
    pub fn word(&mut self, alloc: Global) -> Result<PlaceValue<Line>, FormEnd>
        ensures { Reads result (word self.old) self.new }
    {
        match self.next() {
            Some(word) => Ok(Ok(line_of(alloc, word)?)),
            None => Err(FormEnd::BadLine),
        }
    }

    /// The next word as a name.
    pub fn name(&mut self, alloc: Global) -> Result<PlaceValue<Line>, FormEnd>
        ensures { Reads result (name self.old) self.new }
    {
        match self.next() {
            Some(word) => Ok(name_place(alloc, word)?),
            None => Err(FormEnd::BadLine),
        }
    }

    /// The next word as a file name.
    pub fn file(&mut self, alloc: Global) -> Result<PlaceValue<Line>, FormEnd>
        ensures { Reads result (file self.old) self.new }
    {
        match self.next() {
            Some(word) => Ok(file_place(alloc, word)?),
            None => Err(FormEnd::BadLine),
        }
    }

    /// The next word as a number of 64 bits with a sign.
    pub fn int(&mut self) -> Result<PlaceValue<i64>, FormEnd>
        ensures { Reads result (int self.old) self.new }
    {
        match self.next() {
            Some(word) => Ok(int_place(word)),
            None => Err(FormEnd::BadLine),
        }
    }

    /// The next word as a number of 64 bits.
    pub fn count(&mut self) -> Result<PlaceValue<u64>, FormEnd>
        ensures { Reads result (count self.old) self.new }
    {
        match self.next() {
            Some(word) => Ok(count_place(word)),
            None => Err(FormEnd::BadLine),
        }
    }

    /// The next word as a number of 32 bits.
    pub fn size(&mut self) -> Result<PlaceValue<u32>, FormEnd>
        ensures { Reads result (size self.old) self.new }
    {
        match self.next() {
            Some(word) => Ok(size_place(word)),
            None => Err(FormEnd::BadLine),
        }
    }
}

/// Whether a word is this fixed one.
pub fn is_word(word: &[u8], fixed: &[u8]) -> bool
    ensures { result ≡ bytes_eq word.now fixed.now }
{
    word == fixed
}

// At which word of a line no form was left, and what may stand there.
use crate::forms::{
    Forms, LINE, SECOND_LINE, first_symbol, fits, form_begun, forms_of, is_optional,
};
use crate::message::{put_number, put_shown};
use blue_words::lines::is_plain;
use blue_words::words::Words;
use elem_core::why::NoMemory;
use std::alloc::Global;
use stream_model::limit::MAX_TEXT_LINE;

/// How many symbols are looked at: more than a line has words, and each of them symbols that are left out.
const SYMBOLS: usize = 8192;

/// What came of a symbol.
enum Step {
    /// It fits, or was left out.
    On,
    /// The line is at its end, and so are its forms.
    Fits,
    /// The word fits no form.
    Stuck,
}

/// A walk over the words of a line.
#[derive(Drop)]
struct Walk<'a> {
    /// The words behind the one that is looked at.
    words: Words<'a>,
    /// The word that is looked at; none at the end of the line.
    word: Option<&'a [u8]>,
    /// Its number, from 1.
    number: usize,
    /// The word before it.
    behind: Option<&'a [u8]>,
    /// What is to come, the next last.
    left: Vec<&'static [u8]>,
    /// What may stand in the place of the word, as far as it was looked for.
    may: Vec<u8>,
    /// Whether the line may end here.
    may_end: bool,
    /// Whether names, files and numbers are looked at too.
    exact: bool,
}

// Choice: docs/DECISIONS.md#table-of-forms
/// Appends forms as they are told: without the parts that may be left out.
fn put_forms(out: &mut Vec<u8>, forms: &[u8]) -> Result<(), NoMemory> {
    if !out.is_empty() && !forms.is_empty() {
        out.extend_from_slice(b", ")?;
    }
    let mut is_left_out = false;
    for byte in forms {
        is_left_out = match *byte {
            b'?' => true,
            b',' | b' ' => false,
            _ => is_left_out,
        };
        if !is_left_out && *byte != b'^' {
            out.push(*byte)?;
        }
    }
    Ok(())
}

impl<'a> Walk<'a> {
    /// Looks at the next word.
    fn pass(&mut self) {
        self.behind = self.word;
        self.word = self.words.next();
        self.number = self.number.saturating_add(1);
        self.may.clear();
    }

    /// Whether the word may stand for a symbol that is one word.
    fn is_at(&self, symbol: &[u8]) -> bool {
        match self.word {
            Some(word) => fits(symbol, word, self.exact),
            None => false,
        }
    }

    /// The first form that the word may begin.
    fn form_at(&self, forms: Forms) -> Option<&'static [u8]> {
        let word = self.word?;
        if let Some(form) = form_begun(forms.first, word, self.exact) {
            return Some(form);
        }
        match form_begun(forms.second, word, self.exact) {
            Some(form) => Some(form),
            None => form_begun(forms.third, word, self.exact),
        }
    }

    /// Takes a symbol that is one word.
    fn take_word(&mut self, symbol: &'static [u8]) -> Result<Step, NoMemory> {
        if self.is_at(symbol) {
            self.pass();
            return Ok(Step::On);
        }
        put_forms(&mut self.may, symbol)?;
        Ok(Step::Stuck)
    }

    /// Takes a symbol.
    fn take(&mut self, symbol: &'static [u8]) -> Result<Step, NoMemory> {
        let Some(forms) = forms_of(symbol) else {
            return self.take_word(symbol);
        };
        if let Some(form) = self.form_at(forms) {
            self.left.push(form)?;
            return Ok(Step::On);
        }
        put_forms(&mut self.may, forms.first)?;
        put_forms(&mut self.may, forms.second)?;
        put_forms(&mut self.may, forms.third)?;
        Ok(if is_optional(symbol) {
            Step::On
        } else {
            Step::Stuck
        })
    }

    /// Takes the next symbol that is to come.
    fn step(&mut self) -> Result<Step, NoMemory> {
        let Some(form) = self.left.pop() else {
            self.may_end = true;
            return Ok(if self.word.is_none() {
                Step::Fits
            } else {
                Step::Stuck
            });
        };
        let (symbol, rest) = first_symbol(form);
        if !rest.is_empty() {
            self.left.push(rest)?;
        }
        self.take(symbol)
    }

    /// Walks to the first word that fits no form, and says whether there is one.
    fn is_stuck(&mut self) -> Result<bool, NoMemory> {
        for _ in 0..SYMBOLS {
            match self.step()? {
                Step::On => {}
                Step::Fits => return Ok(false),
                Step::Stuck => return Ok(true),
            }
        }
        Ok(false)
    }

    /// Appends the word that fits no form, and what may stand there.
    fn put(&self, out: &mut Vec<u8>) -> Result<(), NoMemory> {
        out.extend_from_slice(b"Word ")?;
        put_number(out, self.number as u64)?;
        match self.word {
            Some(word) => put_quoted_word(out, b", ", word)?,
            None => out.extend_from_slice(b" is missing")?,
        }
        match self.behind {
            Some(behind) => put_quoted_word(out, b": behind ", behind)?,
            None => out.extend_from_slice(b": at the beginning")?,
        }
        out.extend_from_slice(b" stands ")?;
        self.put_may(out)
    }

    /// Appends what may stand there.
    fn put_may(&self, out: &mut Vec<u8>) -> Result<(), NoMemory> {
        out.extend_from_slice(&self.may)?;
        if self.may_end {
            out.extend_from_slice(if self.may.is_empty() {
                b"nothing"
            } else {
                b", or nothing"
            })?;
        }
        out.extend_from_slice(b".\n")
    }
}

/// Appends a word in quotes.
fn put_quoted_word(out: &mut Vec<u8>, before: &[u8], word: &[u8]) -> Result<(), NoMemory> {
    out.extend_from_slice(before)?;
    out.push(b'`')?;
    put_shown(out, word)?;
    out.push(b'`')?;
    Ok(())
}

/// Appends the first byte of a line that is neither a space nor a byte of a word.
fn put_odd_byte(out: &mut Vec<u8>, line: &[u8]) -> Result<(), NoMemory> {
    for i in 0..line.len() {
        let kind: &[u8] = match line[i] {
            b' '..=b'~' => continue,
            b'\t' => b"a tab",
            b'\r' => b"a CR",
            _ => b"no visible byte of ASCII",
        };
        out.extend_from_slice(b"Byte ")?;
        put_number(out, (i as u64).saturating_add(1))?;
        out.extend_from_slice(b" is ")?;
        out.extend_from_slice(kind)?;
        out.extend_from_slice(b": words are of visible bytes of ASCII, and parted by spaces.\n")?;
        return Ok(());
    }
    Ok(())
}

/// Appends at which word of a line no form was left, and what may stand there; nothing where each word fits. With `second` the text is
/// one of version 2, and with `exact` the names, files and numbers are looked at too.
pub(crate) fn put_misfit(
    alloc: Global,
    out: &mut Vec<u8>,
    line: &[u8],
    second: bool,
    exact: bool,
) -> Result<(), NoMemory> {
    if line.len() > MAX_TEXT_LINE {
        return Ok(());
    }
    if !is_plain(line) {
        return put_odd_byte(out, line);
    }
    let mut words = Words::of(line);
    let word = words.next();
    let mut walk = Walk {
        words,
        word,
        number: 1,
        behind: None,
        left: Vec::new(alloc),
        may: Vec::new(alloc),
        may_end: false,
        exact,
    };
    walk.left.push(if second { SECOND_LINE } else { LINE })?;
    if walk.is_stuck()? {
        walk.put(out)?;
    }
    Ok(())
}

// The lines of a command's words.
ghost use Rattle.std.specs.Prelude.{◌≡◌, List, ℕ, map, IfOk};
ghost use Rattle.std.specs.Str.{is_utf8};
ghost use Rattle.process_words.specs.Words.{bytes_of, command_words, is_line, word_line};

use elem_core::line::Line;
use elem_core::why::NoMemory;
use std::alloc::Global;

/// Whether the word is a line. It takes no memory.
fn is_line(word: &[u8]) -> bool
    ensures { result ≡ is_line word.now }
{
    Line::can_hold(word)
}

/// Whether the word is UTF-8. It takes no memory.
#[tactic(auto, using(crate::proofs::Utf8::holds, crate::proofs::Utf8::fails))]
fn is_utf8(word: &[u8]) -> bool
    ensures { result ≡ is_utf8 word.now }
{
    std::str::from_utf8(word).is_ok()
}

/// The line of a word; a word that is no line, or not UTF-8, is the empty line.
fn line_of(alloc: Global, word: &[u8]) -> Result<Line, NoMemory>
    ensures { IfOk result (λ line. line ≡ word_line word.now) }
{
    let mut bytes = Vec::new(alloc);
    if is_line(word) && is_utf8(word) {
        bytes.extend_from_slice(word)?;
    }
    Ok(Line::of(bytes))
}

/// The lines of words.
fn lines_of(alloc: Global, words: &[Vec<u8>]) -> Result<Vec<Line>, NoMemory>
    ensures { IfOk result (λ lines. lines.items ≡ map word_line (bytes_of words.now)) }
{
    let mut lines = Vec::new(alloc);
    for word in words {
        lines.push(line_of(alloc, word)?)?;
    }
    Ok(lines)
}

/// The lines of the words of a command: of all but the first, which is the program's name.
pub fn command_lines(alloc: Global, words: &[Vec<u8>]) -> Result<Vec<Line>, NoMemory>
    ensures { IfOk result (λ lines. lines.items ≡ command_words (bytes_of words.now)) }
{
    match words {
        [_, words @ ..] => lines_of(alloc, words),
        [] => Ok(Vec::new(alloc)),
    }
}

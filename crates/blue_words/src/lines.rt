// The lines of a text, and the lines that say nothing.
ghost use Rattle.std.specs.Prelude.{◌≡◌, ◌<◌, ◌≤◌, ◌+◌, length, [], ◌∷◌, Some, None, MatchOption, IfSome};
ghost use Rattle.std.specs.Char.{is_ascii_graphic};
ghost use Rattle.std.specs.List.{list_all, list_any};
ghost use Rattle.elem_core.specs.Text.{lines};
ghost use Rattle.blue_words.specs.Cut.{cut_at};
ghost use Rattle.blue_words.specs.Line.{is_comment, is_passed_over, is_plain, is_plain_byte};

use memchr::memchr;

// Choice: docs/DECISIONS.md#longest-line
/// The first line, without its LF, and what stands behind it. A last line without LF counts.
pub fn next_line(text: &[u8]) -> Option<(&[u8], &[u8])>
    ensures split { MatchOption result (lines text.now ≡ []) (λ r. lines text.now ≡ r.0.now ∷ lines r.1.now) }
    ensures shorter { IfSome result (λ r. length r.1.now < length text.now) }
{
    if text.is_empty() {
        return None;
    }
    match cut_at(text, b'\n') {
        Some((line, rest)) => Some((line, rest)),
        None => Some((text, &text[text.len()..])),
    }
}

/// What stands before the first such byte, and what stands behind it.
pub fn cut_at(text: &[u8], byte: u8) -> Option<(&[u8], &[u8])>
    ensures parts { MatchOption result (cut_at byte text.now ≡ None) (λ r. cut_at byte text.now ≡ Some (r.0.now, r.1.now)) }
    ensures shorter { IfSome result (λ r. length r.0.now + length r.1.now < length text.now) }
{
    match memchr(byte, text) {
        Some(at) => Some((&text[..at], &text[at + 1..])),
        None => None,
    }
}

/// Whether the line says nothing: its first byte other than a space is `#`, or it has no byte from 0x21 to 0x7e.
pub fn is_passed_over(line: &[u8]) -> bool
    ensures { result ≡ is_passed_over line.now }
{
    is_comment(line) || !has_word(line)
}

fn is_comment(line: &[u8]) -> bool
    ensures { result ≡ is_comment line.now }
{
    for byte in line {
        if *byte != b' ' {
            return *byte == b'#';
        }
    }
    false
}

fn has_word(line: &[u8]) -> bool
    ensures { result ≡ list_any is_ascii_graphic line.now }
{
    line.iter().any(|b| b.is_ascii_graphic())
}

/// Whether every byte of the line is a space or a byte of a word.
pub fn is_plain(line: &[u8]) -> bool
    ensures { result ≡ is_plain line.now }
{
    line.iter().all(|b| is_plain_byte(*b))
}

fn is_plain_byte(byte: u8) -> bool
    ensures { result ≡ is_plain_byte byte }
{
    32 <= byte && byte <= 126
}

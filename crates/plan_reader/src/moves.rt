// The moves of a line of a trace.
ghost use Rattle.std.specs.Prelude.{◌≡◌, ◌<◌, ◌≤◌, ◌^◌, ◌++◌, ◌∷◌, [], ℕ, List, length, IfSome, IfNone, IfOk, MatchOption, Err};
ghost use Rattle.std.specs.Fmt.{decimal};
ghost use Rattle.plan_reader.specs.Text.{is_stop, stop_at, IsRest, IsMoveText, IsNeither};

use blue_words::places::size_place;
use itoa::Buffer;
use std::alloc::Global;

/// Why there is no line.
#[derive(Debug, Drop, Clone, Copy, PartialEq, Eq)]
pub enum LineEnd {
    /// It is at fault, or there is none.
    Bad,
    NoMemory,
}

/// The number whose decimal text the bytes are, where it fits 32 bits.
fn number(digits: &[u8]) -> Option<u32>
    ensures some { IfSome result (λ m. digits.now ≡ decimal m) }
    ensures small { IfSome result (λ m. m < 2 ^ 32) }
    ensures none { IfNone result ((m : ℕ) → m < 2 ^ 32 → digits.now ≡ decimal m → ⊥) }
{
    match size_place(digits) {
        Ok(m) => {
            let mut buffer = Buffer::new();
            if digits == buffer.format(m).as_bytes() {
                Some(m)
            } else {
                None
            }
        }
        Err(_) => None,
    }
}

fn is_stop(byte: u8) -> bool
    ensures { result ≡ is_stop byte }
{
    byte == b' ' || byte == b'\n'
}

/// Where the first space or LF stands.
fn stop_at(text: &[u8]) -> Option<usize>
    ensures place { result ≡ stop_at text.now }
    ensures within { IfSome result (λ place. place < length text.now) }
{
    for place in 0..text.len() {
        if is_stop(text[place]) {
            return Some(place);
        }
    }
    None
}

/// The move behind a space, with what stands behind it.
fn move_behind(text: &[u8]) -> Option<(u32, &[u8])>
    ensures some { IfSome result (λ r. IsMoveText (32 ∷ text.now) r.0 r.1.now) }
    ensures none { IfNone result ((m : ℕ) (behind : List ℕ) → IsMoveText (32 ∷ text.now) m behind → ⊥) }
{
    match stop_at(text) {
        Some(place) => match number(&text[..place]) {
            Some(m) => Some((m, &text[place..])),
            None => None,
        },
        None => None,
    }
}

/// The next move of a line.
fn next_move(text: &[u8]) -> Option<(u32, &[u8])>
    ensures some { IfSome result (λ r. IsMoveText text.now r.0 r.1.now) }
    ensures none { IfNone result ((m : ℕ) (behind : List ℕ) → IsMoveText text.now m behind → ⊥) }
{
    if !text.is_empty() && text[0] == b' ' {
        move_behind(&text[1..])
    } else {
        None
    }
}

/// What stands behind LF, where that stands first.
fn behind_end(text: &[u8]) -> Option<&[u8]>
    ensures some { IfSome result (λ r. text.now ≡ 10 ∷ r.now) }
    ensures none { IfNone result ((behind : List ℕ) → text.now ≡ 10 ∷ behind → ⊥) }
{
    if !text.is_empty() && text[0] == b'\n' {
        Some(&text[1..])
    } else {
        None
    }
}

/// The moves of a line behind its name, and what stands behind its LF.
pub fn read_moves(alloc: Global, text: &[u8]) -> Result<(Vec<u32>, &[u8]), LineEnd>
    ensures ok { IfOk result (λ r. IsRest text.now r.0.items r.1.now) }
    ensures bad { result ≡ Err LineEnd.Bad → (ms behind : List ℕ) → IsRest text.now ms behind → ⊥ }
{
    let mut moves = Vec::new(alloc);
    let mut rest = text;
    while let Some((m, behind)) = next_move(rest) {
        if moves.push(m).is_err() {
            return Err(LineEnd::NoMemory);
        }
        rest = behind;
    }
    match behind_end(rest) {
        Some(behind) => Ok((moves, behind)),
        None => Err(LineEnd::Bad),
    }
}

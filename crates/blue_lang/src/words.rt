// Words behind one space each. Only the bytes grow: no other memory is taken.
ghost use Rattle.std.specs.Prelude.{◌≡◌, ◌++◌, ◌∷◌, [], OnOk};
ghost use Rattle.std.specs.Fmt.{decimal, signed_decimal};
ghost use Rattle.blue_lang.specs.Spaced.{spaced};

use elem_core::why::NoMemory;
use itoa::Buffer;

/// Appends a word behind a space.
pub fn write_word(out: &mut Vec<u8>, word: &[u8]) -> Result<(), NoMemory>
    ensures { OnOk result (out.new.items ≡ out.old.items ++ spaced (word.now ∷ [])) }
{
    out.push(b' ')?;
    out.extend_from_slice(word)
}

/// Appends two words, each behind a space.
pub fn write_two(out: &mut Vec<u8>, first: &[u8], second: &[u8]) -> Result<(), NoMemory>
    ensures { OnOk result (out.new.items ≡ out.old.items ++ spaced (first.now ∷ second.now ∷ [])) }
{
    write_word(out, first)?;
    write_word(out, second)
}

/// Appends a number behind a space, in decimal.
pub fn write_count(out: &mut Vec<u8>, count: u64) -> Result<(), NoMemory>
    ensures { OnOk result (out.new.items ≡ out.old.items ++ spaced (decimal count ∷ [])) }
{
    let mut buffer = Buffer::new();
    write_word(out, buffer.format(count).as_bytes())
}

/// Appends a number with its sign behind a space, in decimal.
pub fn write_int(out: &mut Vec<u8>, number: i64) -> Result<(), NoMemory>
    ensures { OnOk result (out.new.items ≡ out.old.items ++ spaced (signed_decimal number ∷ [])) }
{
    let mut buffer = Buffer::new();
    write_word(out, buffer.format(number).as_bytes())
}

/// Appends a word and a number, each behind a space.
pub fn write_word_count(out: &mut Vec<u8>, word: &[u8], count: u64) -> Result<(), NoMemory>
    ensures { OnOk result (out.new.items ≡ out.old.items ++ spaced (word.now ∷ decimal count ∷ [])) }
{
    write_word(out, word)?;
    write_count(out, count)
}

/// Appends a word and two numbers, each behind a space.
pub fn write_word_counts(
    out: &mut Vec<u8>,
    word: &[u8],
    first: u64,
    second: u64,
) -> Result<(), NoMemory>
    ensures { OnOk result (out.new.items ≡ out.old.items ++ spaced (word.now ∷ decimal first ∷ decimal second ∷ [])) }
{
    write_word_count(out, word, first)?;
    write_count(out, second)
}

/// Appends a word and a number with its sign, each behind a space.
pub fn write_word_int(out: &mut Vec<u8>, word: &[u8], number: i64) -> Result<(), NoMemory>
    ensures { OnOk result (out.new.items ≡ out.old.items ++ spaced (word.now ∷ signed_decimal number ∷ [])) }
{
    write_word(out, word)?;
    write_int(out, number)
}

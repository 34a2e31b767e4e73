// The words of a blueprint that are not fixed.
ghost use Rattle.std.specs.Prelude.{◌≡◌};
ghost use Rattle.std.specs.Char.{is_ascii_graphic};
ghost use Rattle.std.specs.List.{list_all};
ghost use Rattle.blue_words.specs.Names.{begins_with_letter, is_file_byte, is_file_name, is_name, is_name_byte, is_word};

const NAME_LIMIT: usize = 32;

const FILE_NAME_LIMIT: usize = 64;

/// Whether the bytes are a file name: a letter or a digit, and up to 63 letters, digits, `.`, `_` or `-`.
pub fn is_file_name(bytes: &[u8]) -> bool
    ensures { result ≡ is_file_name bytes.now }
{
    match bytes.split_first() {
        Some((first, rest)) => {
            first.is_ascii_alphanumeric() && rest.len() < FILE_NAME_LIMIT && are_file_bytes(rest)
        }
        None => false,
    }
}

fn are_file_bytes(bytes: &[u8]) -> bool
    ensures { result ≡ list_all is_file_byte bytes.now }
{
    bytes.iter().all(|b| is_file_byte(*b))
}

fn is_file_byte(byte: u8) -> bool
    ensures { result ≡ is_file_byte byte }
{
    byte.is_ascii_alphanumeric() || byte == b'.' || byte == b'_' || byte == b'-'
}

/// Whether the bytes are a name: a lower-case letter, and up to 31 lower-case letters, digits or `_`.
pub fn is_name(bytes: &[u8]) -> bool
    ensures { result ≡ is_name bytes.now }
{
    match bytes.split_first() {
        Some((first, rest)) => {
            first.is_ascii_lowercase() && rest.len() < NAME_LIMIT && are_name_bytes(rest)
        }
        None => false,
    }
}

fn are_name_bytes(bytes: &[u8]) -> bool
    ensures { result ≡ list_all is_name_byte bytes.now }
{
    bytes.iter().all(|b| is_name_byte(*b))
}

fn is_name_byte(byte: u8) -> bool
    ensures { result ≡ is_name_byte byte }
{
    byte.is_ascii_lowercase() || byte.is_ascii_digit() || byte == b'_'
}

/// Whether the bytes are a word: one or more, from 0x21 to 0x7e.
pub fn is_word(bytes: &[u8]) -> bool
    ensures { result ≡ is_word bytes.now }
{
    !bytes.is_empty() && are_graphic(bytes)
}

fn are_graphic(bytes: &[u8]) -> bool
    ensures { result ≡ list_all is_ascii_graphic bytes.now }
{
    bytes.iter().all(|b| b.is_ascii_graphic())
}

/// Whether the first byte is a letter.
pub fn begins_with_letter(bytes: &[u8]) -> bool
    ensures { result ≡ begins_with_letter bytes.now }
{
    match bytes.first() {
        Some(first) => first.is_ascii_alphabetic(),
        None => false,
    }
}

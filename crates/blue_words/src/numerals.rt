// The values of digits. Each byte is read once, and no memory is taken.
ghost use Rattle.std.specs.Prelude.{◌≡◌, ◌-◌, ◌^◌, min, Some, None, if◌then◌else◌};
ghost use Rattle.std.specs.Str.Parse.{digits_value};
ghost use Rattle.blue_words.specs.Numbers.{are_digits};

const MOST_DIGITS: usize = 20;

// The value of 1 to 20 digits; none of them comes near the greatest number of its type.
pub(crate) fn numeral(digits: &[u8]) -> Option<u128>
    ensures { result ≡ (if are_digits digits.now then Some (min (digits_value 10 digits.now) (2 ^ 128 - 1)) else None) }
{
    if digits.is_empty() || digits.len() > MOST_DIGITS {
        return None;
    }
    let mut value: u128 = 0;
    for digit in digits {
        if !digit.is_ascii_digit() {
            return None;
        }
        value = value
            .saturating_mul(10)
            .saturating_add(u128::from(*digit - b'0'));
    }
    Some(value)
}

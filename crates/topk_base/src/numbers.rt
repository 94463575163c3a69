//! Numbers as text.

ghost use Rattle.std.specs.Prelude.{◌≡◌, ◌<◌, ◌^◌, true, SomeIff};
ghost use Rattle.std.specs.Char.{is_ascii_digit};
ghost use Rattle.std.specs.List.{list_all};
ghost use Rattle.std.specs.Str.{all_ascii_digits};
ghost use Rattle.std.specs.Str.Parse.{digits_value};
ghost use Rattle.topk_base.specs.Numbers.{is_number, number_up_to, ReadsNumber};

/// Why a text isn't read as a number of 64 bits.
#[derive(Clone, Copy, Debug, PartialEq, Eq)]
pub enum NumberFault {
    /// The text is no number: it is neither `0` nor a digit 1 to 9 followed by digits.
    NoNumber,
    /// The text is a number above the last value of `u64`.
    TooLarge,
}

/// Whether each byte is a digit.
pub fn are_digits(bytes: &[u8]) -> bool
    ensures { result ≡ list_all is_ascii_digit bytes.now }
{
    bytes.iter().all(|digit| digit.is_ascii_digit())
}

/// Whether a text is a number: `0` alone, or a digit 1 to 9 followed by digits.
pub fn is_number(text: &[u8]) -> bool
    ensures { result ≡ is_number text.now }
{
    let Some((first, rest)) = text.split_first() else {
        return false;
    };
    if *first == b'0' {
        return rest.is_empty();
    }
    if !first.is_ascii_digit() {
        return false;
    }
    are_digits(rest)
}

/// The value of digits, leading zeros among them, or None where it is above the last value of `u64`.
pub fn value_of_digits(digits: &[u8]) -> Option<u64>
    requires { all_ascii_digits digits.now ≡ true }
    ensures { SomeIff result (digits_value 10 digits.now < 2 ^ 64) (digits_value 10 digits.now) }
{
    let mut value: u64 = 0;
    for digit in digits {
        value = value.checked_mul(10)?.checked_add((*digit - b'0') as u64)?;
    }
    Some(value)
}

/// The number that a text spells.
pub fn read_number(text: &[u8]) -> Result<u64, NumberFault>
    ensures { ReadsNumber text.now result }
{
    if !is_number(text) {
        return Err(NumberFault::NoNumber);
    }
    value_of_digits(text).ok_or(NumberFault::TooLarge)
}

/// The number that a text spells, where it spells one that is at most `most`.
pub fn number_up_to(text: &[u8], most: u64) -> Option<u64>
    ensures { result ≡ number_up_to most text.now }
{
    match read_number(text) {
        Ok(number) if number <= most => Some(number),
        _ => None,
    }
}

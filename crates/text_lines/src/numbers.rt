//! Numbers in decimal, without needless zeros.

ghost use Rattle.std.specs.Prelude.{◌≡◌, ◌≤◌, ◌+◌, ◌*◌, ◌^◌, Some, true, min};
ghost use Rattle.std.specs.Str.{all_ascii_digits};
ghost use Rattle.std.specs.Str.Parse.{digits_value};
ghost use Rattle.asp_model.specs.ReportLines.{is_numeral as is_numeral_text, index_of as index_in, only_index, count_of as count_in};
ghost use Rattle.text_lines.specs.Numbers.{number_below, only_below};

// Above every number of an activity, a creation, a request, or reductions.
const ABOVE: u64 = 4_294_967_296;

// The greatest place without its last digit, and that digit.
const MOST_TENS: u128 = 34_028_236_692_093_846_346_337_460_743_176_821_145;

const LAST_DIGIT: u128 = 5;

/// The number of a creation or of a request.
pub fn index_of(text: &[u8]) -> Option<u32>
    ensures index { result ≡ index_in text.now }
{
    if !is_numeral(text) {
        return None;
    }
    index(value(text))
}

fn index(number: u64) -> Option<u32>
    ensures { result ≡ only_index (Some number) }
{
    if 1 <= number && number < ABOVE {
        Some(number as u32)
    } else {
        None
    }
}

/// A count of reductions.
pub fn count_of(text: &[u8]) -> Option<u64>
    ensures count { result ≡ count_in text.now }
{
    if text.len() <= 8 && is_numeral(text) {
        Some(value(text))
    } else {
        None
    }
}

/// A number below 2^32.
pub fn number_of(text: &[u8]) -> Option<u32>
    ensures number { result ≡ number_below (2 ^ 32) text.now }
{
    if !is_numeral(text) {
        return None;
    }
    number(value(text))
}

fn number(number: u64) -> Option<u32>
    ensures { result ≡ only_below (2 ^ 32) (Some number) }
{
    if number < ABOVE {
        Some(number as u32)
    } else {
        None
    }
}

/// A place of a store: a number below 2^128.
pub fn place_of(text: &[u8]) -> Option<u128>
    ensures place { result ≡ number_below (2 ^ 128) text.now }
{
    if !is_numeral(text) {
        return None;
    }
    wide_value(text)
}

fn is_numeral(text: &[u8]) -> bool
    ensures { result ≡ is_numeral_text text.now }
{
    match text {
        [] => false,
        [_] => are_digits(text),
        [first, ..] => *first != b'0' && are_digits(text),
    }
}

fn are_digits(text: &[u8]) -> bool
    ensures { result ≡ all_ascii_digits text.now }
{
    text.iter().all(|b| b.is_ascii_digit())
}

// The number that digits write, where it is below `ABOVE`.
fn value(digits: &[u8]) -> u64
    requires { all_ascii_digits digits.now ≡ true }
    ensures { result ≡ min (digits_value 10 digits.now) ABOVE }
{
    let mut value = 0;
    for digit in digits {
        value = (value * 10 + u64::from(*digit - b'0')).min(ABOVE);
    }
    value
}

// The number that digits write, where it is below 2^128.
fn wide_value(digits: &[u8]) -> Option<u128>
    requires { all_ascii_digits digits.now ≡ true }
    ensures { result ≡ only_below (2 ^ 128) (Some (digits_value 10 digits.now)) }
{
    let mut value: u128 = 0;
    for digit in digits {
        value = with_digit(value, u128::from(*digit - b'0'))?;
    }
    Some(value)
}

// With one digit more, where that is below 2^128.
fn with_digit(value: u128, digit: u128) -> Option<u128>
    requires { digit ≤ 9 }
    ensures { result ≡ only_below (2 ^ 128) (Some (value * 10 + digit)) }
{
    if value < MOST_TENS {
        return Some(value * 10 + digit);
    }
    if value == MOST_TENS && digit <= LAST_DIGIT {
        return Some(value * 10 + digit);
    }
    None
}

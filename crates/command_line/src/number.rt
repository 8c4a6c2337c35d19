//! Numbers in words.

ghost use Rattle.std.specs.Prelude.{◌≡◌, ◌≤◌, true, IfSome};
ghost use Rattle.std.specs.Char.{is_ascii_digit};
ghost use Rattle.std.specs.List.{list_all};
ghost use Rattle.std.specs.Str.Parse.{digits_value};
ghost use Rattle.command_line.specs.Numbers.{
  is_number as is_number_text,
  number_in as number_within,
};

/// The number that the text writes, where it is one from `least` to `most`.
pub fn number_in(text: &str, least: u64, most: u64) -> Option<u64>
    ensures number { result ≡ number_within least most text.now }
    ensures within { IfSome result (λ n. (least ≤ n) × (n ≤ most)) }
{
    if !is_number(text) {
        return None;
    }
    let number = value_of(text);
    if least <= number && number <= most {
        Some(number)
    } else {
        None
    }
}

// 1 to 8 digits.
fn is_number(text: &str) -> bool
    ensures { result ≡ is_number_text text.now }
{
    let bytes = text.as_bytes();
    1 <= bytes.len() && bytes.len() <= 8 && are_digits(bytes)
}

fn are_digits(bytes: &[u8]) -> bool
    ensures { result ≡ list_all is_ascii_digit bytes.now }
{
    bytes.iter().all(|b| b.is_ascii_digit())
}

fn value_of(text: &str) -> u64
    requires number { is_number_text text.now ≡ true }
    ensures { result ≡ digits_value 10 text.now }
{
    text.parse().unwrap_or(0)
}

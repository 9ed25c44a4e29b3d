//! The numbers that words spell.

ghost use Rattle.std.specs.Prelude.{◌≡◌, ◌≤◌};
ghost use Rattle.std.specs.Prelude.{option_map};
ghost use Rattle.std.specs.Char.{is_ascii_digit};
ghost use Rattle.std.specs.List.{list_all};
ghost use Rattle.command_words.specs.Numbers as spec;

/// A number has at most this many digits, zeros in front of it included.
const MOST_DIGITS: usize = 20;

fn all_digits(text: &[u8]) -> bool
    ensures { result ≡ list_all is_ascii_digit text.now }
{
    text.iter().all(|byte| byte.is_ascii_digit())
}

fn is_numeral(text: &[u8]) -> bool
    ensures { result ≡ spec.is_numeral text.now }
{
    !text.is_empty() && text.len() <= MOST_DIGITS && all_digits(text)
}

/// The number that a text spells.
pub(crate) fn number_of(text: &str) -> Option<u64>
    ensures { result ≡ spec.number_of text.now }
{
    if !is_numeral(text.as_bytes()) {
        return None;
    }
    match text.parse::<u64>() {
        Ok(number) => Some(number),
        Err(_) => None,
    }
}

/// The number from 1 to a greatest one that a text spells.
pub(crate) fn count_of(most: u32, text: &str) -> Option<u32>
    ensures { result ≡ spec.count_of most text.now }
{
    let number = number_of(text)?;
    if 1 <= number && number <= most as u64 {
        return Some(number as u32);
    }
    None
}

/// The number that a text spells, or the usual one where there is no text.
pub(crate) fn number_or(usual: u64, text: Option<&str>) -> Option<u64>
    ensures { result ≡ spec.or_usual spec.number_of usual (option_map (λ t. t.now) text.entry) }
{
    match text {
        Some(text) => number_of(text),
        None => Some(usual),
    }
}

/// The number from 1 to a greatest one that a text spells, or the usual one where there is no text.
pub(crate) fn count_or(most: u32, usual: u32, text: Option<&str>) -> Option<u32>
    ensures { result ≡ spec.or_usual (spec.count_of most) usual (option_map (λ t. t.now) text.entry) }
{
    match text {
        Some(text) => count_of(most, text),
        None => Some(usual),
    }
}

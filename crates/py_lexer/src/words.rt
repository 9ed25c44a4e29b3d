//! Bytes by what they are, and runs of them.

ghost use Rattle.std.specs.Prelude.{◌≡◌, ◌<◌, ◌≤◌, ◌^◌, false, length, take_while, IsTrue, MatchOption};
ghost use Rattle.py_lexer.specs.Cursor as spec;
ghost use Rattle.py_lexer.specs.LogicalLines.{are_digits as AreDigits, value_from, leads_with_zero as LeadsWithZero, makes_number};

/// One more than the largest number.
const LIMIT: u128 = 1 << 127;

pub fn is_letter(b: u8) -> bool
    ensures { result ≡ spec.is_letter b }
{
    (b >= 65 && b <= 90) || b == 95 || (b >= 97 && b <= 122)
}

pub fn is_digit(b: u8) -> bool
    ensures { result ≡ spec.is_digit b }
{
    b >= 48 && b <= 57
}

fn is_word(b: u8) -> bool
    ensures { result ≡ spec.is_word b }
{
    is_letter(b) || is_digit(b)
}

fn is_numeric(b: u8) -> bool
    ensures { result ≡ spec.is_numeric b }
{
    is_digit(b) || b == b'_'
}

pub fn is_blank(b: u8) -> bool
    ensures { result ≡ spec.is_blank b }
{
    b == b' ' || b == b'\t'
}

pub fn is_hash(b: u8) -> bool
    ensures { result ≡ spec.is_hash b }
{
    b == b'#'
}

pub fn is_backslash(b: u8) -> bool
    ensures { result ≡ spec.is_backslash b }
{
    b == b'\\'
}

pub fn is_quote(b: u8) -> bool
    ensures quote { result ≡ spec.is_quote b }
    ensures some { IsTrue result → 0 < b }
    ensures ascii { IsTrue result → b < 128 }
{
    b == b'\'' || b == b'"'
}

/// How many letters, digits and underscores the bytes begin with.
pub fn word_run(bytes: &[u8]) -> usize
    ensures value { result ≡ length (take_while spec.is_word bytes.now) }
    ensures within { result ≤ length bytes.now }
{
    bytes.iter().take_while(|b| is_word(**b)).count()
}

/// How many digits and underscores the bytes begin with.
fn digit_run(bytes: &[u8]) -> usize
    ensures value { result ≡ length (take_while spec.is_numeric bytes.now) }
    ensures within { result ≤ length bytes.now }
{
    bytes.iter().take_while(|b| is_numeric(**b)).count()
}

/// How many spaces and tabs the bytes begin with.
pub fn blank_run(bytes: &[u8]) -> usize
    ensures value { result ≡ length (take_while spec.is_blank bytes.now) }
    ensures within { result ≤ length bytes.now }
{
    bytes.iter().take_while(|b| is_blank(**b)).count()
}

/// How many spaces the bytes begin with.
pub fn space_run(bytes: &[u8]) -> usize
    ensures value { result ≡ length (take_while spec.is_space bytes.now) }
    ensures within { result ≤ length bytes.now }
{
    bytes.iter().take_while(|b| **b == 32).count()
}

/// The digits and underscores that the bytes begin with.
#[tactic(auto, using(crate::proofs::Runs::run_is))]
pub fn digits_of(bytes: &[u8]) -> &[u8]
    ensures { result.now ≡ take_while spec.is_numeric bytes.now }
{
    &bytes[..digit_run(bytes)]
}

/// Whether the bytes are digits with single underscores between them.
fn are_digits(run: &[u8]) -> bool
    ensures { result ≡ AreDigits false run.now }
{
    let mut after = false;
    'digits: for b in run {
        if *b == 95 {
            if !after {
                return false;
            }
            after = false;
        } else {
            after = true;
        }
    }
    after
}

/// The number that the digits make, where it is below 2 ^ 127.
pub fn value_of(run: &[u8]) -> Option<u128>
    ensures { MatchOption result (2 ^ 127 ≤ value_from 0 run.now) (λ n. (n ≡ value_from 0 run.now) × (n < 2 ^ 127)) }
{
    let mut n: u128 = 0;
    'digits: for b in run {
        if *b != 95 {
            if n > LIMIT / 10 {
                return None;
            }
            n = 10 * n + u128::from(b.saturating_sub(48));
            if n >= LIMIT {
                return None;
            }
        }
    }
    Some(n)
}

fn leads_with_zero(run: &[u8]) -> bool
    ensures { result ≡ LeadsWithZero run.now }
{
    match run {
        [48, ..] => value_of(run) != Some(0),
        _ => false,
    }
}

/// Whether digits make a number where the byte `next` follows them.
pub fn is_number(run: &[u8], next: u8) -> bool
    ensures { result ≡ makes_number run.now next }
{
    are_digits(run) && !leads_with_zero(run) && !(is_letter(next) || next == 46)
}

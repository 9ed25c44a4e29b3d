//! Signs, by their numbers.
#![tactic(auto, unfolding(crate::specs::LogicalLines::sign_len))]

ghost use Rattle.std.specs.Prelude.{◌≡◌, ◌<◌, ◌≤◌, [], position, nat_eq, option_map, map, slice_index_or, length, IfSome};
ghost use Rattle.std.specs.List.{starts_with};
ghost use Rattle.py_tree.specs.Tokens.{signs as Signs};
ghost use Rattle.py_lexer.specs.LogicalLines as spec;

/// The signs by their numbers. None begins a later one, so the first that fits is the longest.
const SIGNS: [&str; 27] = [
    "//=", "->", "==", "!=", "<=", ">=", "//", "+=", "-=", "*=", "%=", "(", ")", "[", "]", ":",
    ",", ";", ".", "=", "<", ">", "+", "-", "*", "%", "@",
];

/// The place of the first of the texts that the bytes begin with.
fn first_of(bytes: &[u8], texts: &[&str]) -> Option<usize>
    ensures first { result ≡ position (λ text. starts_with nat_eq bytes.now text.now) texts.now }
    ensures within { IfSome result (λ n. n < length texts.now) }
{
    texts
        .iter()
        .position(|text| bytes.starts_with(text.as_bytes()))
}

/// How long one of the texts is.
fn len_of(texts: &[&str], n: usize) -> usize
    requires { n < length texts.now }
    ensures { result ≡ length (slice_index_or (map (λ text. text.now) texts.now) n []) }
{
    texts[n].len()
}

/// The number of the sign that the bytes begin with.
fn number_of(bytes: &[u8]) -> Option<usize>
    ensures number { result ≡ position (starts_with nat_eq bytes.now) Signs }
    ensures within { IfSome result (λ n. n < 27) }
{
    first_of(bytes, &SIGNS)
}

/// How many bytes a sign has.
fn sign_len(number: usize) -> usize
    requires { number < 27 }
    ensures { result ≡ spec.sign_len number }
{
    len_of(&SIGNS, number)
}

/// The number of the sign that the bytes begin with, and its length.
pub fn sign_of(bytes: &[u8]) -> Option<(u8, usize)>
    ensures number { result ≡ option_map (λ n. (n, spec.sign_len n)) (position (starts_with nat_eq bytes.now) Signs) }
    ensures within { IfSome result (λ s. s.1 ≤ length bytes.now) }
    ensures some { IfSome result (λ s. 0 < s.1) }
{
    let number = number_of(bytes)?;
    Some((number as u8, sign_len(number)))
}

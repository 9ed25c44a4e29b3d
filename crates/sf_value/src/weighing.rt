//! How much a value weighs, counted up to a bound.

ghost use Rattle.std.specs.Prelude.{◌≡◌, ◌+◌, ◌≤◌, length, min};
ghost use Rattle.sf_value.specs.Weight.{weight_of};

use crate::value::Value;

/// The heaviest weight that a program may make.
pub const WEIGHT_LIMIT: u64 = 65_536;

/// One more than the heaviest weight: every weight above the limit counts as this.
pub const TOO_HEAVY: u64 = WEIGHT_LIMIT + 1;

/// How much a value weighs. It takes no memory, and looks no further once the value is too heavy.
pub fn weight(value: &Value) -> u64
    ensures { result ≡ min (weight_of value.now) 65537 }
{
    add_weight(0, value)
}

/// How much a text weighs as a value.
pub fn text_weight(text: &str) -> u64
    ensures { result ≡ min (1 + length text.now) 65537 }
{
    add_bytes(0, text)
}

fn add_bytes(so_far: u64, text: &str) -> u64
    requires { so_far ≤ 65537 }
    ensures { result ≡ min (so_far + (1 + length text.now)) 65537 }
{
    (so_far + 1)
        .saturating_add(text.len() as u64)
        .min(TOO_HEAVY)
}

#[tactic(auto, using(crate::proofs::Weights::weights))]
fn add_weight(so_far: u64, value: &Value) -> u64
    requires { so_far ≤ 65537 }
    ensures { result ≡ min (so_far + weight_of value.now) 65537 }
{
    match value {
        Value::Int(_) | Value::Bool(_) | Value::Nil => (so_far + 1).min(TOO_HEAVY),
        Value::Str(text) => add_bytes(so_far, text.as_str()),
        Value::Entity(at) => add_bytes(so_far, at.key.as_str()),
        Value::List(items) => {
            let mut total = (so_far + 1).min(TOO_HEAVY);
            for item in items.as_slice() {
                if total == TOO_HEAVY {
                    return total;
                }
                total = add_weight(total, item);
            }
            total
        }
    }
}

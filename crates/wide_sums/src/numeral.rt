//! The text of a sum.

ghost use Rattle.std.specs.Prelude.{◌≡◌, ◌++◌, ◌^◌, ◌<◌, ◌*◌, decimal};
ghost use Rattle.std.specs.Fmt.{signed_decimal};
ghost use Rattle.wide_sums.specs.Sums.{last_digits, sum_of};

use crate::sum::Sum;
use itoa::Buffer;

/// The last twenty decimal digits of a number, with zeros in front.
fn padded(number: u128) -> [u8; 20]
    ensures { result ≡ last_digits 20 number }
{
    let mut digits = [0; 20];
    let mut rest = number;
    let mut at = 20;
    while at > 0 {
        at -= 1;
        digits[at] = b'0' + (rest % 10) as u8;
        rest /= 10;
    }
    digits
}

/// Room for the text of a sum.
#[derive(Drop)]
pub struct Numeral {
    front: Buffer,
    back: Buffer,
    padded: [u8; 20],
}

/// The text of a sum.
#[derive(Clone, Copy)]
pub struct Written<'a> {
    pub sign: &'a [u8],
    pub front: &'a [u8],
    pub back: &'a [u8],
}

impl Numeral {
    pub fn new() -> Numeral {
        Numeral {
            front: Buffer::new(),
            back: Buffer::new(),
            padded: [0; 20],
        }
    }

    /// The text of a sum, in three parts that stand one behind the other.
    pub fn format(&mut self, sum: &Sum) -> Written<'_>
        ensures { result.sign.now ++ (result.front.now ++ result.back.now) ≡ signed_decimal (sum_of sum.now) }
    {
        let distance = sum.distance();
        let sign: &[u8] = if distance.negative { b"-" } else { b"" };
        let (high, low) = distance.size.words();
        if high == 0 {
            Written {
                sign,
                front: b"",
                back: self.back.format(low).as_bytes(),
            }
        } else {
            self.padded = padded(low);
            Written {
                sign,
                front: self.front.format(high).as_bytes(),
                back: &self.padded,
            }
        }
    }
}

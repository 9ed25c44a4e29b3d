//! Sums in two words.

ghost use Rattle.std.specs.Prelude.{◌≡◌, ◌+◌, ◌-◌, ◌*◌, ◌<◌, ◌≤◌, ◌^◌, ℕ, pos, ◌+ℤ◌, nat_le};
ghost use Rattle.wide_sums.specs.Sums.{sum_of, HasRoom, IsAway, IsNear};

use std::marker::Model;

/// What the second word stays below.
const BASE: u128 = 100_000_000_000_000_000_000;

/// A natural number: `high` times 10^20, and `low`.
#[derive(Drop)]
pub struct Wide {
    high: u128,
    low: u128,
}

impl Model for Wide {
    ghost use Rattle.std.specs.Prelude.{ℕ, ◌+◌, ◌*◌, ◌^◌, ◌<◌};

    ghost Value = { ℕ };

    ghost view = { λ w. w.high * 10 ^ 20 + w.low };

    ghost invariant = { λ w. w.low < 10 ^ 20 };
}

impl Wide {
    fn zero() -> Wide
        ensures { result ≡ 0 }
    {
        Wide { high: 0, low: 0 }
    }

    /// With one more number added.
    fn plus(&self, number: u128) -> Wide
        requires room { self.now ≤ 2 ^ 191 }
        ensures { result ≡ self.now + number }
    {
        let low = self.low + number % BASE;
        let high = self.high + number / BASE;
        if low < BASE {
            Wide { high, low }
        } else {
            Wide {
                high: high + 1,
                low: low - BASE,
            }
        }
    }

    /// Whether another number is at most this one.
    fn reaches(&self, other: &Wide) -> bool
        ensures { result ≡ nat_le other.now self.now }
    {
        self.high > other.high || (self.high == other.high && self.low >= other.low)
    }

    /// Without another number, which is at most this one.
    fn minus(&self, other: &Wide) -> Wide
        requires less { other.now ≤ self.now }
        ensures { result ≡ self.now - other.now }
    {
        if self.low >= other.low {
            Wide {
                high: self.high - other.high,
                low: self.low - other.low,
            }
        } else {
            Wide {
                high: self.high - other.high - 1,
                low: self.low + BASE - other.low,
            }
        }
    }

    /// Its two words.
    pub(crate) fn words(&self) -> (u128, u128)
        ensures number { result.0 * 10 ^ 20 + result.1 ≡ self.now }
        ensures low { result.1 < 10 ^ 20 }
    {
        (self.high, self.low)
    }
}

/// A sum of numbers of 128 bits, fewer than 2^64 of them.
#[derive(Drop)]
pub struct Sum {
    /// The numbers from 0 on.
    pub above: Wide,
    /// The others, without their signs.
    pub below: Wide,
}

impl Sum {
    /// The sum of no numbers.
    pub fn nothing() -> Sum
        ensures above { result.above ≡ 0 }
        ensures below { result.below ≡ 0 }
    {
        Sum {
            above: Wide::zero(),
            below: Wide::zero(),
        }
    }

    /// With one more number.
    pub fn plus(self, number: i128) -> Sum
        requires room { HasRoom self }
        ensures sum { sum_of result ≡ sum_of self +ℤ number }
        ensures near { IsNear self result }
    {
        let size = number.unsigned_abs();
        if number < 0 {
            Sum {
                above: self.above,
                below: self.below.plus(size),
            }
        } else {
            Sum {
                above: self.above.plus(size),
                below: self.below,
            }
        }
    }

    /// On which side of 0 it is, and how far from there.
    pub(crate) fn distance(&self) -> Distance
        ensures { IsAway self.now result }
    {
        if self.above.reaches(&self.below) {
            Distance {
                negative: false,
                size: self.above.minus(&self.below),
            }
        } else {
            Distance {
                negative: true,
                size: self.below.minus(&self.above),
            }
        }
    }
}

/// Where a sum is.
#[derive(Drop)]
pub(crate) struct Distance {
    /// Whether it is below 0.
    pub(crate) negative: bool,
    /// How far it is from 0.
    pub(crate) size: Wide,
}

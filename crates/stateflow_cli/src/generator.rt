//! A chooser by a generator of numbers.

ghost use Rattle.std.specs.Prelude.{ℕ, ◌≡◌, ◌/◌, ◌^◌, None};
ghost use Rattle.work_gen.specs.Draws.{next_number as number_behind};

use sf_outside::Chooser;
use std::marker::Model;
use work_gen::next_number;

/// Each pick is the upper half of the generator's next number. What is chosen is not told.
#[derive(Drop)]
pub struct Generator {
    state: u64,
}

impl Model for Generator {
    ghost Value = { ℕ };

    ghost view = { λ generator. generator.state };
}

impl Generator {
    /// A generator that stands at 0.
    pub fn new() -> Generator
        ensures { result ≡ 0 }
    {
        Generator { state: 0 }
    }
}

/// The upper half of a number.
fn upper_half(number: u64) -> u32
    ensures { result ≡ number / 2 ^ 32 }
{
    (number >> 32) as u32
}

impl Chooser for Generator {
    ghost choices = { λ _. None };

    fn start(&mut self, number: u64)
        ensures state { self.new ≡ number }
    {
        self.state = number;
    }

    fn pick(&mut self, _n: u32) -> u32
        ensures state { self.new ≡ number_behind self.old }
        ensures pick { result ≡ self.new / 2 ^ 32 }
    {
        self.state = next_number(self.state);
        upper_half(self.state)
    }
}

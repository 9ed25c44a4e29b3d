//! The numbers that are drawn: a linear congruential generator, of which the high bits are taken.

ghost use Rattle.std.specs.Prelude.{◌≡◌};
ghost use Rattle.work_gen.specs.Draws as spec;

const MULTIPLIER: u64 = 6_364_136_223_846_793_005;

const INCREMENT: u64 = 1_442_695_040_888_963_407;

/// The state of the generator behind this one.
pub fn next_number(x: u64) -> u64
    ensures { result ≡ spec.next_number x }
{
    x.wrapping_mul(MULTIPLIER).wrapping_add(INCREMENT)
}

/// Draws a number.
pub(crate) fn draw(state: &mut u64) -> u64
    ensures drawn { result ≡ spec.drawn state.old }
    ensures state { state.new ≡ spec.next_number state.old }
{
    *state = next_number(*state);
    *state >> 33
}

//! Floor division and modulo of whole numbers.

ghost use Rattle.std.specs.Prelude.{◌≡◌, ◌≢◌, ◌↔◌, ℤ, pos, IfSome, IsNone, IsTrue};
ghost use Rattle.sf_value.specs.Arithmetic.{HaveOppositeSigns, FloorDivides, HasOneQuotient, HasNoQuotient, floor_quotient, floor_rest};

/// A divisor other than 0 gives one quotient and one remainder.
pub fn has_one_quotient()
    ensures { (x y : ℤ) → y ≢ pos 0 → HasOneQuotient x y }
{}

/// What divides by the rules is what `floor_quotient` and `floor_rest` compute.
pub fn has_computed_quotient()
    ensures { (x y q r : ℤ) → y ≢ pos 0 → FloorDivides x y q r → (q ≡ floor_quotient x y) × (r ≡ floor_rest x y) }
{}

/// Whether a division towards zero that left this remainder rounded up.
fn have_opposite_signs(remainder: i128, divisor: i128) -> bool
    ensures { IsTrue result ↔ HaveOppositeSigns remainder divisor }
{
    (remainder > 0 && divisor < 0) || (remainder < 0 && divisor > 0)
}

/// `x // y`, where it is a number of 128 bits.
pub fn floor_div(x: i128, y: i128) -> Option<i128>
    ensures value { IfSome result (λ q. (r : ℤ) × FloorDivides x y q r) }
    ensures none { IsNone result ↔ HasNoQuotient x y }
{
    let towards_zero = x.checked_div(y)?;
    if have_opposite_signs(x.wrapping_rem(y), y) {
        Some(towards_zero - 1)
    } else {
        Some(towards_zero)
    }
}

/// `x % y`. It is a number of 128 bits for each divisor other than 0.
pub fn floor_mod(x: i128, y: i128) -> Option<i128>
    ensures value { IfSome result (λ r. (q : ℤ) × FloorDivides x y q r) }
    ensures none { IsNone result ↔ (y ≡ pos 0) }
{
    if y == 0 {
        return None;
    }
    let towards_zero = x.wrapping_rem(y);
    if have_opposite_signs(towards_zero, y) {
        Some(towards_zero + y)
    } else {
        Some(towards_zero)
    }
}

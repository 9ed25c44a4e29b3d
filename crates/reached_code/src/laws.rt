//! Each part of a hoisted method can be reached.

ghost use Rattle.reached_code.specs.NoPartIsDead.{NoPartIsDead};

/// Behind a statement of a hoisted method where no way leads on nothing stands, and a loop whose test isn't the literal True has a
/// point behind it, whatever the method is.
pub fn no_part_is_dead()
    ensures { NoPartIsDead }
{}

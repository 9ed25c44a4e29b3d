//! Callees and created classes of the flat code of an accepted program.

ghost use Rattle.hoisted_callees.specs.CalleesStand.{CalleesStand};

/// Each callee of a method's flat code is a method of the class tables, under the number of its name; so is each class of which the
/// code creates an entity.
pub fn callees_stand()
    ensures { CalleesStand }
{}

//! What the marks of an accepted program say of its code.

ghost use Rattle.quiet_methods.specs.MarksKeepWithin.{UnmarkedStay, MarksKeepWithin, CheckedKeepWithin};

/// In an accepted program the body of a method without a mark doesn't suspend. So a call that stays
/// by the marks is on `self` and runs such a body; this is what the laws on code that runs on one
/// record ask for, and whoever holds a checked program and its marks has it.
pub fn marks_keep_within()
    ensures methods { UnmarkedStay }
    ensures calls { MarksKeepWithin }
    ensures checked { CheckedKeepWithin }
{}

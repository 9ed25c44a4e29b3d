//! Parts that take turns: each comes to what it comes to alone, whichever of them is picked when.
//!
//! What a part is, what a step of it does, and what is noted of a step are left open: the events of the
//! transactions of a batch are such parts. The crate runs nothing.
#![tactic(auto)]

ghost use Rattle.interleaving.specs.AsAlone.{AllComeToTheirOwn};

/// However the turns are given, parts that each come to an end alone all end, once there were as many
/// turns as steps; each comes to what it comes to alone, and each step is noted as often as alone.
pub fn each_comes_to_its_own<T, N>()
    ensures { AllComeToTheirOwn T N }
{}

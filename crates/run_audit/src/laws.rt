//! What the definition of verdicts says by itself.

ghost use Rattle.run_audit.specs.Fronts.{FrontsDecide};

/// What the front of a file decides holds of each file that begins so.
pub fn fronts_decide()
    ensures { FrontsDecide }
{}

//! What the definition of a session's steps says by itself.

ghost use Rattle.session_steps.specs.StepLaws.{StepsPrint, ComesBegin};

/// What steps print is what a session in batches prints, of lines and of a whole input with its end.
pub fn steps_print()
    ensures { StepsPrint }
{}

/// Wherever a session has stopped among its steps, a first part of what they print was printed, of their
/// batches some first ones were run and told, and the trace begins with the lines of those.
pub fn comes_begin()
    ensures { ComesBegin }
{}

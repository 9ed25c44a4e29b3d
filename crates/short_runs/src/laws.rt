//! What requests come to, and the state that they leave, is short and real.

ghost use Rattle.short_runs.specs.RealRuns.{FirstIsReal, RunsAreReal, SerialIsReal};
ghost use Rattle.short_runs.specs.ShortRuns.{FirstIsShort, RunsAreShort, SerialIsShort};

/// The empty state is short. From a short state each request comes to a short outcome and leaves a
/// short state, whatever the program and the request; so do any number of them, one after another.
/// For whatever comes into the state is light: values that expressions gave, and a key from the
/// arguments of a request that isn't refused. So is the text of a failure's message.
pub fn runs_are_short()
    ensures first { FirstIsShort }
    ensures runs { RunsAreShort }
    ensures serial { SerialIsShort }
{}

/// The empty state is real. In an accepted program whose written ints have 128 bits and whose names
/// are UTF-8, each real request on a real state comes to a real outcome and leaves a real state; so
/// do any number of them, one after another. For ints that are made are within range, texts are
/// joined of real ones, and a light text or list has few parts to count. The message of a failure is
/// part of the outcome.
pub fn runs_are_real()
    ensures first { FirstIsReal }
    ensures runs { RunsAreReal }
    ensures serial { SerialIsReal }
{}

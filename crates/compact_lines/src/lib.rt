//! That a line is never shorter than the compact text of what it is read as, as a law.
//!
//! A reader takes more forms than a writer gives: spaces, escapes that aren't needed, keys that come twice, ints as texts with zeros in front.
//! None of them is shorter. So a request that came as a line that may be read is written in one that may be read.
#![tactic(auto)]

ghost use Rattle.compact_lines.specs.CompactLines.{TextsAreNoShorter, LinesAreNoShorter, LinesStayLines};

/// No text is shorter than the compact text of its data, and no line than that of its request: so what came as a line that may be read is exported in one.
pub fn lines_are_no_shorter()
    ensures texts { TextsAreNoShorter }
    ensures lines { LinesAreNoShorter }
    ensures read { LinesStayLines }
{}

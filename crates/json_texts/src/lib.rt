//! Which JSON data are read back from their compact text, and that this text is one line.
//!
//! These are laws of the reader and of the writer together, and nothing here runs.
#![tactic(auto)]

ghost use Rattle.json_texts.specs.TextLaws.{TextsReadBack, TextsAreUtf8, TextsAreLines};

/// Plain data are read back from their compact text, which is UTF-8 and has no control character: so
/// no line end stands in it, and none of its bytes is taken for the CR before one.
pub fn plain_texts()
    ensures back { TextsReadBack }
    ensures utf8 { TextsAreUtf8 }
    ensures lines { TextsAreLines }
{}

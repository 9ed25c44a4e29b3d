//! The lines in which a history is exported, as a definition, and what they are to an audit.
//!
//! These are laws, and nothing here runs.
#![tactic(auto)]

ghost use Rattle.export_laws.specs.ExportLaws.{ExportsAreSerial, RepliesAreShort};

/// What is exported of a sound history is serial, by the verdict on the file that these lines are.
pub fn exports_are_serial()
    ensures { ExportsAreSerial }
{}

/// The reply to what a request comes to is never too long for an audit.
pub fn replies_are_short()
    ensures { RepliesAreShort }
{}

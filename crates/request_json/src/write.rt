//! Reply lines, written as JSON.

ghost use Rattle.std.specs.Prelude.{◌≡◌, IfOk};
ghost use Rattle.request_json.specs.ReplyLines.{reply_line, bad_line};
ghost use Rattle.request_json.specs.Sending.{IsLineOf};

use crate::sending::{RefusalMembers, ReplyMembers};
use py_tree::Checked;
use serde::Serialize;
use sf_list::Sequence;
use sf_value::{Bytes, Outcome, Reply, Text};
use std::alloc::{AllocError, Global};

/// The text of what is written, and LF.
pub(crate) fn line_of<T: Serialize>(alloc: Global, members: &T) -> Result<Bytes, AllocError>
    ensures { IfOk result (λ line. IsLineOf (T.writes members.now) line) }
{
    let Ok(text) = serde_json::to_vec(alloc, members) else {
        return Err(AllocError);
    };
    let mut text = text;
    text.push(b'\n')?;
    Ok(Sequence::from_vec(text))
}

/// The line of what a request with this id came to, at its place in the history.
pub fn write_entry(
    alloc: Global,
    id: &Text,
    outcome: &Outcome,
    seq: u32,
) -> Result<Bytes, AllocError>
    ensures { IfOk result (λ line. line ≡ reply_line id.now outcome.now seq) }
{
    line_of(alloc, &ReplyMembers { id, outcome, seq })
}

/// The line of a reply. It names no class and no method, so the program isn't read.
pub fn write_reply(
    alloc: Global,
    _program: &Checked,
    id: &Text,
    reply: &Reply,
) -> Result<Bytes, AllocError>
    ensures { IfOk result (λ line. line ≡ reply_line id.now reply.now.outcome reply.now.seq) }
{
    write_entry(alloc, id, &reply.outcome, reply.seq)
}

/// The line that refuses a line of the input.
pub fn write_bad(alloc: Global, text: &str, line: u64) -> Result<Bytes, AllocError>
    ensures { IfOk result (λ made. made ≡ bad_line text.now line) }
{
    line_of(alloc, &RefusalMembers { text, line })
}

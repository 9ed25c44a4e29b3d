//! The lines of the replies to a batch, which are made before it is committed.

ghost use Rattle.std.specs.Prelude.{◌≡◌, [], ◌++◌, IfOk, OnOk};
ghost use Rattle.std.specs.List.{cons_option};
ghost use Rattle.std.specs.Option.{option_copied};
ghost use Rattle.batch_output.specs.Vocabulary.{requests_at};
ghost use Rattle.batch_replies.specs.LinesInOrder.{line_of, reply_lines};

use batch_output::Planned;
use request_json::write_entry;
use sf_list::Sequence;
use sf_value::{Bytes, Reply, Request, Requests};
use std::alloc::{AllocError, Global};

/// Lines, each with its end.
pub(crate) type Lines = Sequence<Bytes>;

/// The lines of the replies to the requests that a plan commits, in its order. A line is the next
/// reply's, so its number is that of the lines before it.
pub(crate) fn reply_lines(
    alloc: Global,
    pending: &Requests,
    planned: &Planned,
) -> Result<Lines, AllocError>
    ensures { IfOk result (λ lines. lines ≡ reply_lines (requests_at pending.now planned.now.batch.committed) planned.now.replies) }
{
    let mut lines = Sequence::new(alloc);
    for &place in planned.batch.committed.as_slice() {
        let next = lines.len();
        push_line(
            &mut lines,
            alloc,
            pending.get(place as usize),
            planned.replies.get(next),
        )?;
    }
    Ok(lines)
}

fn push_line(
    lines: &mut Lines,
    alloc: Global,
    request: Option<&Request>,
    reply: Option<&Reply>,
) -> Result<(), AllocError>
    ensures { OnOk result (lines.new ≡ lines.old ++ cons_option (line_of (option_copied request.entry) (option_copied reply.entry)) []) }
{
    match (request, reply) {
        (Some(request), Some(reply)) => lines.push(
            alloc,
            write_entry(alloc, &request.id, &reply.outcome, reply.seq)?,
        ),
        _ => Ok(()),
    }
}

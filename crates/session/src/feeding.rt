//! The lines of the input: each is answered, and the answer is written.

ghost use Rattle.std.specs.Prelude.{◌≡◌, ◌≤◌, ◌<◌, ◌+◌, ◌^◌, false, [], ◌∷◌, length};
ghost use Rattle.program_meaning.specs.Sources.{source_of};
ghost use Rattle.request_json.specs.Actions.{last_line};
ghost use Rattle.session.specs.Standings.{standing_of, line_of};
ghost use Rattle.session.specs.Stops.{Counts};
ghost use Rattle.session.specs.Answering.{Answers};

use crate::answering::Standing;
use crate::stopping::SessionStop;
use input_lines::Lines;
use py_tree::Checked;
use sf_outside::{Sink, write_line};
use std::alloc::Global;

/// How the input ended, where the session didn't stop before.
#[derive(Clone, Copy, PartialEq, Eq, Debug)]
pub enum InputEnd {
    End,
    ReadFault,
    TooLong,
}

impl Standing {
    /// Answers the line that the reader shows.
    pub(crate) fn tell<K: Sink>(
        &mut self,
        alloc: Global,
        program: &Checked,
        reader: &Lines,
        out: &mut K,
        most: u32,
    ) -> Result<(), SessionStop>
        requires few { length self.old.history.entries ≤ most }
        requires lines { self.old.lines + 1 < 2 ^ 64 }
        ensures lines { self.new.lines ≤ self.old.lines + 1 }
        ensures few { length self.new.history.entries ≤ most }
        ensures answers { Answers (source_of program.now) most result (standing_of self.old) self.new (K.held out.old) (K.held out.new)
            (line_of reader.now.ended reader.now.line ∷ []) }
        ensures counts { Counts (K.faults out.old) (K.faults out.new) result }
    {
        let answer = self.answer(alloc, program, reader.line(), reader.ended(), most)?;
        let Some(line) = answer else {
            return Err(SessionStop::HistoryFull);
        };
        write_line(out, line.as_slice())?;
        Ok(())
    }

    /// Answers a last line without LF, where it has a byte.
    pub(crate) fn tell_last<K: Sink>(
        &mut self,
        alloc: Global,
        program: &Checked,
        reader: &Lines,
        out: &mut K,
        most: u32,
    ) -> Result<(), SessionStop>
        requires few { length self.old.history.entries ≤ most }
        requires lines { self.old.lines + 1 < 2 ^ 64 }
        requires left { reader.now.ended ≡ false }
        ensures answers { Answers (source_of program.now) most result (standing_of self.old) self.new (K.held out.old) (K.held out.new)
            (last_line reader.now.line) }
        ensures counts { Counts (K.faults out.old) (K.faults out.new) result }
    {
        if reader.line().is_empty() {
            return Ok(());
        }
        self.tell(alloc, program, reader, out, most)
    }
}

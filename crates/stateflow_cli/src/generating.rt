//! Serving generated work.

ghost use Rattle.std.specs.Prelude.{◌≡◌, ℕ, List, Option, OnOk, OnErr};
ghost use Rattle.std.specs.Io.KnownBytes.{Appends};
ghost use Rattle.sf_outside.specs.Bytes.{AppendsPrefix};
ghost use Rattle.sf_outside.specs.Causes.{HasCause};
ghost use Rattle.command_words.specs.Commands.{work_by};
ghost use Rattle.generated_run.specs.Summaries.{summary_line};
ghost use Rattle.stateflow_cli.specs.Devices.{StoreDisk, Input, Output, devices, sink, outside};
ghost use Rattle.stateflow_cli.specs.Endings.{GenEnds, work_for};
ghost use Rattle.stateflow_cli.specs.Words.{IsWorkInRange};

use crate::ending::Ending;
use command_words::GenWords;
use generated_run::{GenSettings, Summary, run_generated, write_summary};
use operator_graph::Watch;
use sf_outside::{Chooser, Failed, Sink};
use std::alloc::{AllocError, Global};

/// The work that words give.
fn work_of(words: GenWords) -> GenSettings
    ensures { result ≡ work_for (work_by words) }
{
    GenSettings {
        number: words.number,
        size: words.size,
        batch: words.batch,
        parts: words.partitions,
    }
}

/// Writes the line of a summary, and flushes it.
fn print_summary<K: Sink>(out: &mut K, summary: &Summary) -> Result<(), Failed>
    ensures whole { OnOk result (Appends (K.held out.old) (K.held out.new) (summary_line summary.now)) }
    ensures part { OnErr result (AppendsPrefix (K.held out.old) (K.held out.new) (summary_line summary.now)) }
    ensures cause { HasCause (K.faults out.old) (K.faults out.new) result }
{
    write_summary(out, summary)?;
    out.flush()
}

/// Makes the work, serves it, and prints what it came to. The files, the input and the error stream are
/// no matter.
pub(crate) fn serve_generated<K: Sink, C: Chooser, W: Watch>(
    alloc: Global,
    words: GenWords,
    out: &mut K,
    chooser: &mut C,
    watch: &mut W,
) -> Ending
    requires { IsWorkInRange (work_by words) }
    ensures { (content : List ℕ → Option (List ℕ)) (file_faults : List ℕ → ℕ) (input : Input) (err : Output) (disk : StoreDisk)
        → GenEnds (work_by words)
        (devices content file_faults input (sink (K.held out.old) (K.handed out.old) (K.faults out.old))
        err (outside (C.choices chooser.old) (W.told watch.old)) disk)
        (devices content file_faults input (sink (K.held out.new) (K.handed out.new) (K.faults out.new))
        err (outside (C.choices chooser.new) (W.told watch.new)) disk)
        result }
{
    let summary = match run_generated(alloc, &work_of(words), chooser, watch) {
        Ok(summary) => summary,
        Err(AllocError) => return Ending::NoMemory,
    };
    match print_summary(out, &summary) {
        Ok(()) => Ending::Printed,
        Err(Failed) => Ending::Unprinted,
    }
}

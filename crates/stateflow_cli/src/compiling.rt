//! Compiling a file's program.

ghost use Rattle.std.specs.Prelude.{◌≡◌, IfOk, OnOk, OnErr, Option, [], ◌∷◌};
ghost use Rattle.std.specs.Io.KnownBytes.{Appends};
ghost use Rattle.std.specs.Str.{chars};
ghost use Rattle.sf_outside.specs.Bytes.{AppendsPrefix};
ghost use Rattle.sf_outside.specs.Causes.{HasCause};
ghost use Rattle.block_code.specs.GraphViews.{graph_tables, graph_blocks};
ghost use Rattle.operator_graph.specs.Telling.{AlsoTold, GraphTold};
ghost use Rattle.stateflow_cli.specs.CompiledText.{IsCompiledText, compiled_text};
ghost use Rattle.sf_outside.specs.Choices.{Choices};
ghost use Rattle.stateflow_cli.specs.Devices.{StoreDisk, Input, Output, devices, sink, outside};
ghost use Rattle.stateflow_cli.specs.Endings.{ReportEnds};

use crate::ending::Ending;
use crate::loading::{LoadStop, load_compiled};
use block_code::Graph;
use entity_compiler::Compiled;
use operator_graph::Watch;
use sf_outside::{Failed, Files, Sink};
use sf_value::Text;
use std::alloc::{AllocError, Global};

/// The text of a compiled program's graph.
fn text_of(alloc: Global, compiled: &Compiled) -> Result<Text, AllocError>
    ensures { IfOk result (λ text. text ≡ chars (compiled_text compiled.now)) }
{
    compiled.graph().text(alloc, compiled.program().names())
}

/// Tells a graph to the watch.
fn tell_graph<W: Watch>(watch: &mut W, graph: &Graph)
    ensures { AlsoTold (W.told watch.old) (W.told watch.new) (GraphTold (graph_tables graph.now) (graph_blocks graph.now) ∷ []) }
{
    watch.graph(graph);
}

/// Writes a text, and flushes it.
fn print_text<K: Sink>(out: &mut K, text: &[u8]) -> Result<(), Failed>
    ensures whole { OnOk result (Appends (K.held out.old) (K.held out.new) text.now) }
    ensures part { OnErr result (AppendsPrefix (K.held out.old) (K.held out.new) text.now) }
    ensures cause { HasCause (K.faults out.old) (K.faults out.new) result }
{
    out.write(text)?;
    out.flush()
}

/// Compiles the file's program, tells its graph, and prints the graph's text. The input, the error stream and
/// the chooser are no matter.
pub(crate) fn compile_file<F: Files, K: Sink, W: Watch>(
    alloc: Global,
    file: &str,
    files: &mut F,
    out: &mut K,
    watch: &mut W,
) -> Ending
    ensures { (input : Input) (err : Output) (choices : Option Choices) (disk : StoreDisk) → ReportEnds IsCompiledText file.now
        (devices (F.content files.old) (F.faults files.old) input (sink (K.held out.old) (K.handed out.old) (K.faults out.old))
        err (outside choices (W.told watch.old)) disk)
        (devices (F.content files.new) (F.faults files.new) input (sink (K.held out.new) (K.handed out.new) (K.faults out.new))
        err (outside choices (W.told watch.new)) disk)
        result }
{
    let compiled = match load_compiled(alloc, files, file) {
        Ok(compiled) => compiled,
        Err(LoadStop::Refused(fault)) => return Ending::Refused(fault),
        Err(LoadStop::FileFault) => return Ending::FileFault,
        Err(LoadStop::NoMemory) => return Ending::NoMemory,
    };
    let Ok(text) = text_of(alloc, &compiled) else {
        return Ending::NoMemory;
    };
    tell_graph(watch, compiled.graph());
    drop(compiled);
    match print_text(out, text.as_str().as_bytes()) {
        Ok(()) => Ending::Printed,
        Err(Failed) => Ending::Unprinted,
    }
}

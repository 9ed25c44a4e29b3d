//! The run: the work is made, its program compiled, and its requests are served.

ghost use Rattle.std.specs.Prelude.{◌≡◌, ◌≤◌, [], ◌∷◌, IfOk};
ghost use Rattle.sf_outside.specs.Choices.{Begins};
ghost use Rattle.work_gen.specs.Requests.{program, requests};
ghost use Rattle.entity_compiler.specs.Compiling.{IsCompiledOf};
ghost use Rattle.block_code.specs.GraphViews.{graph_tables, graph_blocks};
ghost use Rattle.block_step.specs.CompiledViews.{IsWhole};
ghost use Rattle.operator_graph.specs.Partitions.{IsParts};
ghost use Rattle.operator_graph.specs.Telling.{AlsoTold, GraphTold};
ghost use Rattle.engine.specs.Cores.{CoreFits, IsSoundCore, empty_core};
ghost use Rattle.engine.specs.EngineViews.{core_of, source_of, tables_of, compiled_of, limit_of, fresh_of};
ghost use Rattle.batch_session.specs.Vocabulary.{IsStorable};
ghost use Rattle.generated_run.specs.Generated.{IsNoFault, tally_of, history_limit, service_by, Serves, Comes, Gives};

use crate::devices::{DroppingSink, GivenInput};
use crate::summing::{Summary, summary_of};
use bank_text::bank_is_accepted;
use batch_session::{NoDisk, SessionFault, Settings, Tally, comes_begin, serve, steps_print};
use block_code::Graph;
use engine::Engine;
use entity_compiler::{Compiled, ProgramError, compile};
use operator_graph::Watch;
use reservations::Rule1;
use sf_outside::Chooser;
use std::alloc::{AllocError, Global};
use work_gen::generate;

/// How many entries the history may have.
const HISTORY: u32 = 16_777_216;

/// What is run, and how.
#[derive(Clone, Copy, PartialEq, Eq, Debug)]
pub struct GenSettings {
    /// The number that the work is made of, and that the chooser is started with.
    pub number: u64,
    /// How many requests there are, 1 to 100,000.
    pub size: u32,
    /// How many requests make a batch, 1 to 256.
    pub batch: u32,
    /// How many partitions there are, 1 to 64.
    pub parts: u32,
}

/// Serves the requests of the work on an engine to which nothing has come yet, without a store. Its devices never
/// fail, and neither they nor the history can be too small for it.
fn serve_work<C: Chooser, W: Watch>(
    alloc: Global,
    engine: &mut Engine,
    settings: &GenSettings,
    input: &[u8],
    chooser: &mut C,
    watch: &mut W,
) -> Result<Tally, AllocError>
    requires size { settings.now.size ≤ 100000 }
    requires some { 1 ≤ settings.now.batch }
    requires batch { settings.now.batch ≤ 256 }
    requires parts { IsParts settings.now.parts }
    requires input { input.now ≡ requests settings.now.size 1 settings.now.number }
    requires history { limit_of engine.old ≡ history_limit }
    requires empty { core_of engine.old ≡ empty_core }
    requires whole { IsWhole (compiled_of engine.old) }
    requires fits { CoreFits (tables_of engine.old) (core_of engine.old) }
    requires sound { IsSoundCore (source_of engine.old) (core_of engine.old) }
    requires storable { IsStorable (core_of engine.old) (fresh_of engine.old) }
    ensures { Serves (service_by settings.now (compiled_of engine.old)) input.now result (core_of engine.new)
        (record { choices = C.choices chooser.old; told = W.told watch.old }) (record { choices = C.choices chooser.new; told = W.told watch.new }) }
{
    let session = Settings {
        batch: settings.batch,
        parts: settings.parts,
        limit: input.len() as u64,
        trace: false,
    };
    let mut source = GivenInput { left: input };
    let mut out = DroppingSink;
    let mut err = DroppingSink;
    let mut store = None;
    let mut disk = NoDisk;
    let served = serve(
        alloc,
        engine,
        &mut store,
        &session,
        &mut source,
        &mut out,
        &mut err,
        &mut disk,
        &Rule1,
        chooser,
        watch,
    );
    drop(store);
    steps_print();
    comes_begin();
    tally_of(served)
}

/// The tally of a session that only want of memory may have stopped.
fn tally_of(served: Result<Tally, SessionFault>) -> Result<Tally, AllocError>
    requires { IsNoFault served }
    ensures { result ≡ tally_of served }
{
    match served {
        Ok(tally) => Ok(tally),
        Err(SessionFault::NoMemory) => Err(AllocError),
        Err(_) => unreachable!(),
    }
}

/// Starts the chooser from a number, and then tells the watch the graph.
fn begin<C: Chooser, W: Watch>(number: u64, graph: &Graph, chooser: &mut C, watch: &mut W)
    ensures chooser { Begins (C.choices chooser.old) number (C.choices chooser.new) }
    ensures graph { AlsoTold (W.told watch.old) (W.told watch.new) (GraphTold (graph_tables graph.now) (graph_blocks graph.now) ∷ []) }
{
    chooser.start(number);
    watch.graph(graph);
}

/// Runs the work on its compiled program, and sums up what it came to.
fn run_compiled<C: Chooser, W: Watch>(
    alloc: Global,
    settings: &GenSettings,
    compiled: Compiled,
    input: &[u8],
    chooser: &mut C,
    watch: &mut W,
) -> Result<Summary, AllocError>
    requires size { settings.now.size ≤ 100000 }
    requires some { 1 ≤ settings.now.batch }
    requires batch { settings.now.batch ≤ 256 }
    requires parts { IsParts settings.now.parts }
    requires input { input.now ≡ requests settings.now.size 1 settings.now.number }
    requires whole { IsWhole compiled }
    ensures { Comes settings.now compiled result
        (record { choices = C.choices chooser.old; told = W.told watch.old }) (record { choices = C.choices chooser.new; told = W.told watch.new }) }
{
    let mut engine = Engine::new(alloc, compiled, HISTORY)?;
    begin(settings.number, engine.compiled().graph(), chooser, watch);
    let tally = serve_work(alloc, &mut engine, settings, input, chooser, watch)?;
    summary_of(alloc, &engine, settings.size, tally)
}

/// Compiles the text of the bank, which nothing but want of memory can prevent.
fn compile_bank(alloc: Global, text: &[u8]) -> Result<Compiled, AllocError>
    requires { text.now ≡ program }
    ensures { IfOk result (λ compiled. IsCompiledOf program compiled) }
{
    bank_is_accepted();
    match compile(alloc, text) {
        Ok(compiled) => Ok(compiled),
        Err(ProgramError::NoMemory) => Err(AllocError),
        Err(ProgramError::Fault(_)) => unreachable!(),
    }
}

/// Makes a bank's program and so many requests, starts the chooser with the same number, tells the watch the
/// program's graph, serves all requests in batches, and sums up what that came to. Nothing is printed.
pub fn run_generated<C: Chooser, W: Watch>(
    alloc: Global,
    settings: &GenSettings,
    chooser: &mut C,
    watch: &mut W,
) -> Result<Summary, AllocError>
    requires size { settings.now.size ≤ 100000 }
    requires some { 1 ≤ settings.now.batch }
    requires batch { settings.now.batch ≤ 256 }
    requires parts { IsParts settings.now.parts }
    ensures { Gives settings.now result
        (record { choices = C.choices chooser.old; told = W.told watch.old }) (record { choices = C.choices chooser.new; told = W.told watch.new }) }
{
    let work = generate(alloc, settings.number, settings.size)?;
    let compiled = compile_bank(alloc, work.program.as_slice())?;
    run_compiled(
        alloc,
        settings,
        compiled,
        work.input.as_slice(),
        chooser,
        watch,
    )
}

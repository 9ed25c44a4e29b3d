//! A driver that serves lines by an engine in batches, as a session does, in its simplest form.

ghost use Rattle.std.specs.Prelude.{◌<◌, length, IfOk};
ghost use Rattle.request_history.specs.SoundHistory.{RequestFits};
ghost use Rattle.block_step.specs.CompiledViews.{IsWhole};
ghost use Rattle.engine.specs.EngineViews.{core_of, tables_of};
ghost use Rattle.line_driver.specs.ReadyEngines.{IsReady};

use crate::request_lines::request_of;
use engine::{Arrival, Engine, PlanFault, Planned};
use entity_compiler::{Compiled, compile};
use operator_graph::Watch;
use request_json::{LineError, write_bad, write_entry, write_reply};
use reservations::Rule1;
use sf_outside::ListChooser;
use sf_value::{Bytes, Reply, Request};
use std::alloc::Global;
use std::str;
use std::test::Fail;

/// At most so many requests wait.
const MOST: usize = 256;

/// How batches are made and run.
#[derive(Clone, Copy)]
pub struct Options<'a> {
    /// So many requests make a batch.
    pub batch: usize,
    /// The history of a new engine has at most so many entries.
    pub history: u32,
    pub partitions: u32,
    /// Which event of those in flight comes next, and then always the first.
    pub picks: &'a [u32],
}

/// Serves lines by an engine.
#[derive(Drop)]
pub struct Driver {
    pub engine: Engine,
    chooser: ListChooser,
    batch: usize,
    partitions: u32,
    lines: u64,
}

/// The program of a text, compiled.
pub fn compiled_of(alloc: Global, text: &str) -> Result<Compiled, Fail>
    ensures { IfOk result IsWhole }
{
    match compile(alloc, text.as_bytes()) {
        Ok(compiled) => Ok(compiled),
        Err(_) => Err(Fail::from("the text isn't compiled")),
    }
}

/// A new engine that runs the program of a text.
pub fn new_engine(alloc: Global, text: &str, history: u32) -> Result<Engine, Fail>
    ensures { IfOk result IsReady }
{
    let compiled = compiled_of(alloc, text)?;
    Ok(Engine::new(alloc, compiled, history)?)
}

/// A line without its line end.
fn line_told(alloc: Global, line: &Bytes) -> Result<String, Fail> {
    let text = str::from_utf8(line.as_slice())?;
    Ok(String::from_str(alloc, text.trim_end())?)
}

/// The line that refuses the line of this number.
fn refused(alloc: Global, cause: &str, number: u64) -> Result<String, Fail> {
    let line = write_bad(alloc, cause, number)?;
    line_told(alloc, &line)
}

/// The line of the entry at a place.
fn entry_told(alloc: Global, engine: &Engine, place: u32) -> Result<String, Fail> {
    match engine.entry(place) {
        Some(found) => {
            let line = write_entry(alloc, found.id, &found.committed.outcome, found.seq)?;
            line_told(alloc, &line)
        }
        None => Err(Fail::from("no entry stands at the place")),
    }
}

/// The line of a reply to the request that waits at a place.
fn reply_told(alloc: Global, engine: &Engine, place: u32, reply: &Reply) -> Result<String, Fail> {
    match engine.pending().get(place as usize) {
        Some(request) => {
            let line = write_reply(alloc, engine.compiled().program(), &request.id, reply)?;
            line_told(alloc, &line)
        }
        None => Err(Fail::from("no request waits at the place")),
    }
}

/// The lines of the replies, and then how many requests waited, how many of them are committed, and how
/// many events were handled.
fn batch_told(alloc: Global, engine: &Engine, planned: &Planned) -> Result<String, Fail> {
    let committed = planned.batch.committed.as_slice();
    let mut told = String::new(alloc);
    for (place, reply) in committed.iter().zip(planned.replies.as_slice()) {
        let line = reply_told(alloc, engine, *place, reply)?;
        told.push_str(line.as_str())?;
        told.push(' ')?;
    }
    let waited = engine.pending().len();
    let count = committed.len();
    let events = planned.events;
    Ok(format!(in alloc; "{told}batch {waited} {count} {events}")?)
}

impl Driver {
    /// Serves by a new engine that runs the program of a text.
    pub fn new(alloc: Global, text: &str, options: Options<'_>) -> Result<Driver, Fail>
        ensures { IfOk result (λ driver. IsReady driver.engine) }
    {
        let engine = new_engine(alloc, text, options.history)?;
        Driver::with_engine(alloc, engine, options)
    }

    /// Serves by this engine.
    pub fn with_engine(alloc: Global, engine: Engine, options: Options<'_>) -> Result<Driver, Fail>
        requires { IsReady engine }
        ensures { IfOk result (λ driver. IsReady driver.engine) }
    {
        Ok(Driver {
            engine,
            chooser: ListChooser::new(alloc, options.picks)?,
            batch: options.batch,
            partitions: options.partitions,
            lines: 0,
        })
    }

    /// The engine that has served.
    pub fn into_engine(self) -> Engine
        requires { IsReady self.engine }
        ensures { IsReady result }
    {
        let Driver {
            engine,
            chooser,
            batch: _batch,
            partitions: _partitions,
            lines: _lines,
        } = self;
        drop(chooser);
        engine
    }

    /// Runs a batch of all that wait, where the history has a place for them.
    fn run_batch<W: Watch>(&mut self, alloc: Global, watch: &mut W) -> Result<String, Fail>
        requires { IsReady self.old.engine }
        ensures { IsReady self.new.engine }
    {
        if self.partitions < 1 || self.partitions > 64 {
            return Err(Fail::from("so many partitions there can't be"));
        }
        match self
            .engine
            .plan(alloc, self.partitions, &Rule1, &mut self.chooser, watch)
        {
            Ok(planned) => {
                let told = batch_told(alloc, &self.engine, &planned);
                self.engine.commit(planned);
                told
            }
            Err(PlanFault::HistoryFull { history, pending }) => {
                Ok(format!(in alloc; "history full {history} {pending}")?)
            }
            Err(PlanFault::NoMemory) => Err(Fail::from("no memory for a batch")),
        }
    }

    /// Runs a batch where as many wait as make one.
    fn joined<W: Watch>(&mut self, alloc: Global, watch: &mut W) -> Result<String, Fail>
        requires { IsReady self.old.engine }
        ensures { IsReady self.new.engine }
    {
        if self.engine.pending().len() >= self.batch {
            self.run_batch(alloc, watch)
        } else {
            Ok(String::from_str(alloc, "waits")?)
        }
    }

    /// What a request is answered.
    fn ask<W: Watch>(
        &mut self,
        alloc: Global,
        watch: &mut W,
        request: Request,
    ) -> Result<String, Fail>
        requires ready { IsReady self.old.engine }
        requires few { length (core_of self.old.engine).pending < 256 }
        requires fits { RequestFits (tables_of self.old.engine) request }
        ensures { IsReady self.new.engine }
    {
        match self.engine.arrive(alloc, request)? {
            Arrival::New => self.joined(alloc, watch),
            Arrival::Again(place) => entry_told(alloc, &self.engine, place),
            Arrival::Waiting => Ok(String::from_str(alloc, "waits already")?),
            Arrival::Reused => refused(alloc, "id reused", self.lines),
        }
    }

    /// What a line is answered.
    pub fn answer<W: Watch>(
        &mut self,
        alloc: Global,
        watch: &mut W,
        line: &str,
    ) -> Result<String, Fail>
        requires { IsReady self.old.engine }
        ensures { IsReady self.new.engine }
    {
        if self.engine.pending().len() >= MOST {
            return Err(Fail::from("too many requests wait"));
        }
        self.lines = self.lines.saturating_add(1);
        match request_of(alloc, &self.engine, line) {
            Ok(request) => self.ask(alloc, watch, request),
            Err(LineError::Fault(fault)) => refused(alloc, fault.text(), self.lines),
            Err(LineError::NoMemory) => Err(Fail::from("no memory for a line")),
        }
    }

    /// Runs batches until nothing waits. Each commits a request, so as many batches as requests wait are
    /// enough.
    pub fn end<W: Watch>(&mut self, alloc: Global, watch: &mut W) -> Result<String, Fail>
        requires { IsReady self.old.engine }
        ensures { IsReady self.new.engine }
    {
        let mut told = String::new(alloc);
        for _ in 0..self.engine.pending().len() {
            if !self.engine.pending().is_empty() {
                let batch = self.run_batch(alloc, watch)?;
                told.push_str(batch.as_str())?;
                told.push(' ')?;
            }
        }
        Ok(String::from_str(alloc, told.as_str().trim_end())?)
    }
}

//! The state of all entities, and requests run on it one at a time.

ghost use Rattle.std.specs.Prelude.{◌≡◌, ◌≤◌, length, IfOk, OnOk, OnErr};
ghost use Rattle.indexmap.specs.IndexMap.{insert_all, spare};
ghost use Rattle.few_entities.specs.Entries.{is_ref};
ghost use Rattle.std.specs.FinMap as finite;
ghost use Rattle.std.specs.List.{list_any};
ghost use Rattle.std.specs.Option.{option_copied};
ghost use Rattle.sf_value.specs.Keys.{key_of};
ghost use Rattle.source_meaning.specs.Agrees.{AgreesIn};
ghost use Rattle.source_meaning.specs.Attempts.{ran_of};
ghost use Rattle.program_meaning.specs.RequestRun.{at_first, steps_at_first, run as run_of, begin as the_begin, refused, is_too_heavy, is_heavy as is_heavy_value};
ghost use Rattle.program_meaning.specs.World.{State};
ghost use Rattle.program_meaning.specs.Serial.{no_state};
ghost use Rattle.program_meaning.specs.Sources.{source_of};
ghost use Rattle.source_meaning.specs.Transactions.{world_of, with_records};
ghost use Rattle.source_meaning.specs.Walks.{seen, program_of};

use crate::Stop;
use crate::calls::call_entity;
use crate::creations::make_entity;
use crate::failures::{SIZE_LIMIT, empty_text};
use crate::records::Records;
use crate::run::Run;
use crate::site::{DEPTH_LIMIT, Room, Site};
use crate::transaction::begin;
use few_entities::ByEntity;
use indexmap::IndexMap;
use py_tree::Checked;
use sf_list::TryClone;
use sf_value::{Act, Failure, Outcome, Ref, Request, Value, Values, text_weight, weight};
use std::alloc::{AllocError, Global};
use std::marker::Model;

/// A key or an argument weighs at most this much.
const WEIGHT_LIMIT: u64 = 65_536;

/// The steps that a request has.
const STEPS: u32 = 100_000;

/// No class has this number: a request comes from outside of all entities.
const OUTSIDE: u32 = u32::MAX;

/// The state of the direct interpreter: the record of each entity that there is.
#[derive(Drop)]
pub struct Local {
    records: IndexMap<Ref, Values>,
}

impl Model for Local {
    ghost use Rattle.program_meaning.specs.World.{State};
    ghost use Rattle.source_meaning.specs.StateView.{state_of, state_code};

    ghost Value = { State };

    ghost coded = { state_code };

    ghost view = { λ local. state_of local.records.entries };
}

/// What a request came to on a state, before it is committed.
#[derive(Drop)]
pub struct Attempt {
    /// The value that it gives, or its failure.
    pub outcome: Outcome,
    /// The record of each entity that it wrote. A request that fails has written nothing.
    pub changed: ByEntity<Values>,
    /// Each entity that was called or created, also where it was found missing or the request then failed.
    pub reads: ByEntity<()>,
    /// The steps that are left of 100,000.
    pub steps: u32,
}

impl Local {
    /// The state without an entity.
    pub fn new(alloc: Global) -> Local
        ensures { result ≡ no_state }
    {
        Local {
            records: IndexMap::new(alloc),
        }
    }

    /// The record of an entity, where there is one.
    pub fn get(&self, at: &Ref) -> Option<&Values>
        ensures { option_copied result ≡ finite.get self.now (key_of at.now) }
    {
        self.records.get(at)
    }

    /// Runs one request on the state as it is, and commits nothing.
    pub fn attempt(
        &self,
        alloc: Global,
        program: &Checked,
        asked: &Act,
    ) -> Result<Attempt, AllocError>
        ensures { IfOk result (λ made. ran_of self.now made ≡ run_of (source_of program.now) self.now asked.now) }
    {
        if is_heavy(asked) {
            return too_heavy(alloc);
        }
        let mut run = Run {
            tx: begin(alloc),
            steps: STEPS,
            nesting: 0,
        };
        let given = self.first_call(alloc, program, asked, &mut run);
        let Run { tx, steps, .. } = run;
        match given {
            Ok(value) => Ok(Attempt {
                outcome: Outcome::Value(value),
                changed: tx.changed,
                reads: tx.read,
                steps,
            }),
            Err(Stop::Failed(failure)) => Ok(Attempt {
                outcome: Outcome::Failed(failure),
                changed: ByEntity::new(alloc),
                reads: tx.read,
                steps,
            }),
            Err(Stop::NoMemory) => Err(AllocError),
        }
    }

    /// The call or the creation that a request asks for, from outside of all entities.
    fn first_call(
        &self,
        alloc: Global,
        program: &Checked,
        asked: &Act,
        run: &mut Run,
    ) -> Result<Value, Stop>
        requires fresh { world_of self.now run.now.tx ≡ at_first self.now }
        requires all { run.now.steps ≡ steps_at_first }
        ensures { AgreesIn result (world_of self.now run.new.tx) run.new.steps (the_begin (source_of program.now) asked.now self.now) }
    {
        let outside = Ref {
            class: OUTSIDE,
            key: empty_text(alloc)?,
        };
        let records = Records::all(self);
        let site = Site {
            alloc,
            program,
            state: &records,
            me: &outside,
            fields: program.fields(OUTSIDE),
            room: Room::Open(DEPTH_LIMIT),
        };
        let given = ask(&site, asked, run);
        drop(outside);
        given
    }

    /// Gives entities the records of a transaction, all of them or none.
    fn commit(&mut self, changed: ByEntity<Values>) -> Result<(), AllocError>
        ensures ok { OnOk result (self.new ≡ with_records self.old changed) }
        ensures err { OnErr result (self.new ≡ self.old) }
    {
        let entries = changed.into_list()?;
        self.records.reserve(entries.len())?;
        put_all(&mut self.records, entries);
        Ok(())
    }

    /// Runs one request. A request that fails leaves the state as it was; so does want of memory.
    pub fn run(
        &mut self,
        alloc: Global,
        program: &Checked,
        request: &Request,
    ) -> Result<Outcome, AllocError>
        ensures outcome { IfOk result (λ o. o ≡ (run_of (source_of program.now) self.old request.now.act).outcome) }
        ensures state { OnOk result (self.new ≡ (run_of (source_of program.now) self.old request.now.act).state) }
        ensures err { OnErr result (self.new ≡ self.old) }
    {
        let made = self.attempt(alloc, program, &request.act)?;
        self.commit(made.changed)?;
        Ok(made.outcome)
    }
}

/// Gives entities these records, for which there is room.
fn put_all(records: &mut IndexMap<Ref, Values>, entries: Vec<(Ref, Values)>)
    requires { length entries.items ≤ spare records.old }
    ensures { records.new.entries ≡ insert_all is_ref records.old.entries entries.items }
{
    for (at, fields) in entries {
        records.insert(at, fields).unwrap();
    }
}

/// The call or the creation that a request asks for.
#[tactic(auto, unfolding(program_meaning::specs::RequestRun::begin))]
fn ask(site: &Site<'_>, asked: &Act, run: &mut Run) -> Result<Value, Stop>
    requires fresh { seen site.now run.now ≡ at_first site.now.state.now }
    requires all { run.now.steps ≡ steps_at_first }
    ensures { AgreesIn result (seen site.now run.new) run.new.steps (the_begin (program_of site.now) asked.now site.now.state.now) }
{
    match asked {
        Act::Call {
            class,
            key,
            method,
            args,
        } => {
            let at = Ref {
                class: *class,
                key: key.try_clone(site.alloc)?,
            };
            let given = call_entity(site, DEPTH_LIMIT, &at, *method, args, run);
            drop(at);
            given
        }
        Act::New { class, args } => make_entity(site, DEPTH_LIMIT, *class, args, run),
    }
}

/// A request of which a part weighs too much runs nothing.
fn too_heavy(alloc: Global) -> Result<Attempt, AllocError>
    ensures { (s : State) → IfOk result (λ made. ran_of s made ≡ refused s) }
{
    let failure = Failure {
        kind: SIZE_LIMIT,
        message: empty_text(alloc)?,
    };
    Ok(Attempt {
        outcome: Outcome::Failed(failure),
        changed: ByEntity::new(alloc),
        reads: ByEntity::new(alloc),
        steps: STEPS,
    })
}

fn any_heavy(args: &[Value]) -> bool
    ensures { result ≡ list_any is_heavy_value args.now }
{
    for arg in args {
        if weight(arg) > WEIGHT_LIMIT {
            return true;
        }
    }
    false
}

/// Whether the key or an argument of a request weighs too much.
#[tactic(auto, unfolding(program_meaning::specs::RequestRun::is_too_heavy))]
pub fn is_heavy(asked: &Act) -> bool
    ensures { result ≡ is_too_heavy asked.now }
{
    match asked {
        Act::Call { key, args, .. } => {
            text_weight(key.as_str()) > WEIGHT_LIMIT || any_heavy(args.as_slice())
        }
        Act::New { args, .. } => any_heavy(args.as_slice()),
    }
}

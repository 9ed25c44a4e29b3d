//! Code that doesn't suspend, run on the record of one entity.
//!
//! Calls reach methods of that entity alone, and nothing is created.

ghost use Rattle.std.specs.Prelude.{◌≡◌, ◌-◌, ◌||◌, IfOk, is_some, unwrap_or};
ghost use Rattle.py_tree.specs.PlainExpressions.{plain_expr};
ghost use Rattle.py_tree.specs.PlainStatements.{plain_stmts, stmts_of};
ghost use Rattle.sf_value.specs.Keys.{key_of};
ghost use Rattle.program_meaning.specs.Evaluation.{eval};
ghost use Rattle.program_meaning.specs.Execution.{act_all};
ghost use Rattle.program_meaning.specs.Calls.{on_record, made_record};
ghost use Rattle.program_meaning.specs.RequestRun.{depth_limit};
ghost use Rattle.program_meaning.specs.Sources.{source_of};
ghost use Rattle.program_meaning.specs.Here.{held as the_held, GivesHere};
ghost use Rattle.source_meaning.specs.HereAnswers.{EndsHere, EndedAs, ComesTo, MakesHere, MadeAs};

use crate::Stop;
use crate::creations::make_record;
use crate::expressions::evaluate;
use crate::local::Local;
use crate::records::Records;
use crate::run::Run;
use crate::site::{DEPTH_LIMIT, Room, Site};
use crate::statements::{Flow, execute_all};
use crate::transaction::begin;
use program_meaning::Vars;
use py_tree::{Checked, Expr, Stmts};
use sf_value::{Failure, Outcome, Record, Ref, Value, Values};
use std::alloc::{AllocError, Global};

/// How code that doesn't suspend ends.
#[derive(Drop)]
pub enum Ended {
    /// It came to its end, or to a `break` or a `continue` of a loop outside.
    On,
    /// It returned this value.
    Returned(Value),
    /// It failed.
    Failed(Failure),
}

/// Runs code that doesn't suspend on the record of its entity, with so many calls open.
///
/// A call runs a method of this entity, and a creation fails with `RecursionError`. `wrote` becomes
/// true where a field is assigned, also where its value stays equal or the code fails later, and is
/// kept elsewhere. A failure leaves the locals, the record and the steps of that moment; after a
/// value is returned the locals are of no meaning. It is an error where memory runs out: what the record,
/// the locals and the steps hold is of no meaning then.
pub fn run_here(
    alloc: Global,
    program: &Checked,
    held: &mut Record,
    vars: &mut Vars,
    me: &Ref,
    code: &Stmts,
    wrote: &mut bool,
    steps: &mut u32,
    depth: u32,
) -> Result<Ended, AllocError>
    ensures { IfOk result (λ ended. EndsHere ended vars.new (the_held held.new wrote.new) steps.new
        (act_all (on_record (source_of program.now) (key_of me.now) (depth_limit - depth)) (stmts_of (plain_stmts code.now)) vars.old
        (the_held held.old wrote.old) steps.old)) }
{
    let own = Records::own(me, &held.fields);
    let site = Site {
        alloc,
        program,
        state: &own,
        me,
        fields: program.fields(me.class),
        room: Room::Within(DEPTH_LIMIT.saturating_sub(depth)),
    };
    let mut run = Run {
        tx: begin(alloc),
        steps: *steps,
        nesting: 0,
    };
    let ended = execute_all(&site, code.as_slice(), vars, &mut run);
    *steps = run.steps;
    let written = run.tx.into_written(alloc, me);
    put_back(held, wrote, written);
    ended_here(ended)
}

/// The value of an expression that doesn't suspend, on the record of its entity, with so many calls
/// open.
///
/// A call runs a method of this entity, and a creation fails with `RecursionError`. `wrote` becomes
/// true where a field is assigned, also where its value stays equal or the expression fails later,
/// and is kept elsewhere. A failure leaves the record and the steps of that moment. It is an error
/// where memory runs out: what the record and the steps hold then is of no meaning.
pub fn eval_here(
    alloc: Global,
    program: &Checked,
    held: &mut Record,
    vars: &Vars,
    me: &Ref,
    expr: &Expr,
    wrote: &mut bool,
    steps: &mut u32,
    depth: u32,
) -> Result<Outcome, AllocError>
    ensures { IfOk result (λ outcome. GivesHere outcome (the_held held.new wrote.new) steps.new
        (eval (on_record (source_of program.now) (key_of me.now) (depth_limit - depth)) (plain_expr expr.now) vars.now
        (the_held held.old wrote.old) steps.old)) }
{
    let own = Records::own(me, &held.fields);
    let site = Site {
        alloc,
        program,
        state: &own,
        me,
        fields: program.fields(me.class),
        room: Room::Within(DEPTH_LIMIT.saturating_sub(depth)),
    };
    let mut run = Run {
        tx: begin(alloc),
        steps: *steps,
        nesting: 0,
    };
    let given = evaluate(&site, expr, vars, &mut run);
    *steps = run.steps;
    let written = run.tx.into_written(alloc, me);
    put_back(held, wrote, written);
    outcome_here(given)
}

/// What a creation comes to.
#[derive(Drop)]
pub enum Made {
    /// The record of the new entity.
    Record(Record),
    /// It failed, and there is no record.
    Failed(Failure),
}

/// Runs `__init__` for a new entity, which sees nothing but the arguments.
///
/// A failure leaves the steps of that moment. It is an error where memory runs out: the steps are
/// given up then, and their number is of no meaning.
pub fn make_here(
    alloc: Global,
    program: &Checked,
    at: &Ref,
    args: &Values,
    steps: &mut u32,
) -> Result<Made, AllocError>
    ensures { IfOk result (λ made. MakesHere made steps.new (made_record (source_of program.now) (key_of at.now) args.now steps.old)) }
{
    let empty = Local::new(alloc);
    let none = Records::all(&empty);
    let site = Site {
        alloc,
        program,
        state: &none,
        me: at,
        fields: program.fields(at.class),
        room: Room::Closed,
    };
    let mut run = Run {
        tx: begin(alloc),
        steps: *steps,
        nesting: 0,
    };
    let made = make_record(&site, at, args, &mut run);
    *steps = run.steps;
    drop(run);
    drop(empty);
    made_here(made)
}

/// Puts a record in place of the one that there was, where it was written.
fn put_back(held: &mut Record, wrote: &mut bool, written: Option<Values>)
    ensures fields { held.new.fields ≡ unwrap_or written held.old.fields }
    ensures flag { wrote.new ≡ (wrote.old || is_some written) }
{
    if let Some(fields) = written {
        held.fields = fields;
        *wrote = true;
    }
}

/// How code ends whose statements end so.
fn ended_here(ended: Result<Flow, Stop>) -> Result<Ended, AllocError>
    ensures { IfOk result (EndedAs ended) }
{
    match ended {
        Ok(Flow::Gave(value)) => Ok(Ended::Returned(value)),
        Ok(Flow::On | Flow::Broke | Flow::Continued) => Ok(Ended::On),
        Err(Stop::Failed(failure)) => Ok(Ended::Failed(failure)),
        Err(Stop::NoMemory) => Err(AllocError),
    }
}

/// What an expression comes to that gives this.
fn outcome_here(given: Result<Value, Stop>) -> Result<Outcome, AllocError>
    ensures { IfOk result (ComesTo given) }
{
    match given {
        Ok(value) => Ok(Outcome::Value(value)),
        Err(Stop::Failed(failure)) => Ok(Outcome::Failed(failure)),
        Err(Stop::NoMemory) => Err(AllocError),
    }
}

/// What a creation comes to whose record is made so.
fn made_here(made: Result<Values, Stop>) -> Result<Made, AllocError>
    ensures { IfOk result (MadeAs made) }
{
    match made {
        Ok(fields) => Ok(Made::Record(Record { fields })),
        Err(Stop::Failed(failure)) => Ok(Made::Failed(failure)),
        Err(Stop::NoMemory) => Err(AllocError),
    }
}

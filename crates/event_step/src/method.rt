//! Where a method runs, how far it is, and how it goes on.

ghost use Rattle.std.specs.Prelude.{◌≡◌, ◌-◌, nat_lt, IfOk};
ghost use Rattle.program_meaning.specs.RequestRun.{depth_limit};
ghost use Rattle.event_step.specs.Running.{StepTaken};

use program_meaning::Vars;
use py_tree::Checked;
use sf_value::{Failure, Record, Ref, Value, Values};
use source_meaning::{DEPTH_LIMIT, STEP_LIMIT, bare_failure};
use std::alloc::{AllocError, Global};

/// A program, the entity whose method runs, and how many calls are open there.
#[derive(Drop)]
pub(crate) struct Place<'a> {
    pub(crate) alloc: Global,
    pub(crate) program: &'a Checked,
    pub(crate) me: &'a Ref,
    /// The open calls, the one of the method among them, counted up to the most that there may be.
    pub(crate) depth: u32,
}

/// How far a method is: its record, whether a field of it was assigned, its variables, and the steps
/// that are left.
#[derive(Drop)]
pub(crate) struct Running {
    pub(crate) held: Record,
    pub(crate) wrote: bool,
    pub(crate) vars: Vars,
    pub(crate) steps: u32,
}

/// How a part of a method ends.
#[derive(Drop)]
pub(crate) enum Part {
    /// The method gives a value.
    Gave(Value),
    /// It fails, and none of its catches names the failure.
    Failed(Failure),
    /// It calls a method of this entity, and waits at the end of the block of this number.
    Asks {
        to: Ref,
        args: Values,
        block: u32,
    },
    /// It makes an entity of this class, and waits at the end of the block of this number.
    Wants {
        class: u32,
        args: Values,
        block: u32,
    },
}

/// What follows a block.
#[derive(Drop)]
pub(crate) enum Turn {
    /// The block of this number.
    Goes(u32),
    /// The end of the part.
    Ends(Part),
}

/// How many calls are open in a method that so many frames wait for, counted up to the most that
/// there may be.
pub(crate) fn depth_behind(frames: usize) -> u32
    ensures left { depth_limit - result ≡ 63 - frames }
    ensures room { nat_lt result depth_limit ≡ nat_lt frames 63 }
{
    if frames < (DEPTH_LIMIT - 1) as usize {
        frames as u32 + 1
    } else {
        DEPTH_LIMIT
    }
}

/// Takes a step, or tells the failure where none is left.
pub(crate) fn take_step(alloc: Global, steps: &mut u32) -> Result<Option<Failure>, AllocError>
    ensures { IfOk result (λ failed. StepTaken failed steps.old steps.new) }
{
    if *steps == 0 {
        return Ok(Some(bare_failure(alloc, STEP_LIMIT)?));
    }
    *steps -= 1;
    Ok(None)
}

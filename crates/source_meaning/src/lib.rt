//! The interpreter: requests run on the state of all entities, and code on one record, exactly as
//! the meaning says.
//!
//! Expressions, calls, creations, statements and loops lead to one another. Each of their functions is the
//! definition of the same part of the meaning, on the records that the run sees. What a call may do, and how
//! many more may be open, stands in the site.
//!
//! The stack is spared. A chain of receivers and a run of operators are gone along in a loop, so that
//! code nests no deeper than its levels and its calls. A level takes few and small frames: each form
//! is a function of its own, never put in line, and owns no large value while it runs other code.
#![tactic(auto)]

mod calls;
mod creations;
mod direct;
mod expressions;
mod failures;
mod here;
mod in_place;
mod local;
mod loops;
mod operations;
mod purity;
mod records;
mod run;
mod site;
mod statements;
mod tables;
mod trailers;
mod transaction;
mod vars;

pub use direct::target_entity;
pub use failures::{
    ALREADY_EXISTS, NO_ENTITY, RECURSION_ERROR, SIZE_LIMIT, STEP_LIMIT, bare_failure,
};
pub use here::{Ended, Made, eval_here, make_here, run_here};
pub use local::{Attempt, Local, is_heavy};
pub use operations::{take_text, take_truth};
use sf_value::Failure;
pub use site::DEPTH_LIMIT;
use std::alloc::{AllocError, AllocFailed};
pub use tables::{init_params, method_at, method_params, new_entity};
pub use vars::{assign_field, assign_local, bind_moved};

/// Why a part of a run stops without a value.
#[derive(Drop)]
pub(crate) enum Stop {
    NoMemory,
    Failed(Failure),
}

impl From<AllocError> for Stop {
    ghost use Rattle.std.specs.Prelude.{◌≡◌};
    ghost use Rattle.source_meaning.specs.declared.Stop.TheVariants.{NoMemory};

    ghost from_gives = { λ _ stop. stop ≡ NoMemory };

    fn from(_error: AllocError) -> Stop {
        Stop::NoMemory
    }
}

impl<T: Drop> From<AllocFailed<T>> for Stop {
    ghost use Rattle.std.specs.Prelude.{◌≡◌};
    ghost use Rattle.source_meaning.specs.declared.Stop.TheVariants.{NoMemory};

    ghost from_gives = { λ _ stop. stop ≡ NoMemory };

    fn from(_error: AllocFailed<T>) -> Stop {
        Stop::NoMemory
    }
}

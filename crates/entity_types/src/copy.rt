//! Copies of what is known at a point. Each has the plain form of its original.

use crate::env::{FlowEnv, Local};
use sf_list::TryClone;
use std::alloc::{AllocError, Global};

impl TryClone for Local {
    ghost use Rattle.std.specs.Prelude.{◌≡◌};
    ghost use Rattle.entity_types.specs.Views.{plain_local};

    ghost is_copy = { λ old made. plain_local made ≡ plain_local old };

    fn try_clone(&self, alloc: Global) -> Result<Local, AllocError> {
        let ty = self.ty.try_clone(alloc)?;
        Ok(Local {
            name: self.name,
            ty,
            assigned: self.assigned,
            not_none: self.not_none,
        })
    }
}

impl TryClone for FlowEnv {
    ghost use Rattle.std.specs.Prelude.{◌≡◌};
    ghost use Rattle.entity_types.specs.Views.{plain_env};

    ghost is_copy = { λ old made. plain_env made ≡ plain_env old };

    #[tactic(auto, using(crate::proofs::EnvLaws::copied_locals))]
    fn try_clone(&self, alloc: Global) -> Result<FlowEnv, AllocError> {
        let locals = self.locals.try_clone(alloc)?;
        Ok(FlowEnv {
            class: self.class,
            method: self.method,
            locals,
        })
    }
}

//! Copies of parameters, methods, classes and programs. Each has the plain tree of its original.

use crate::copy_stmt::copy_maybe_written;
use crate::program::{Class, Method, Param, Program};
use sf_list::TryClone;
use std::alloc::{AllocError, Global};

impl TryClone for Param {
    ghost use Rattle.std.specs.Prelude.{◌≡◌};
    ghost use Rattle.py_tree.specs.PlainProgram.{plain_param};

    ghost is_copy = { λ old made. plain_param made ≡ plain_param old };

    fn try_clone(&self, alloc: Global) -> Result<Param, AllocError> {
        let ty = copy_maybe_written(alloc, &self.ty)?;
        Ok(Param {
            name: self.name,
            ty,
            place: self.place,
        })
    }
}

impl TryClone for Method {
    ghost use Rattle.std.specs.Prelude.{◌≡◌};
    ghost use Rattle.py_tree.specs.PlainProgram.{plain_method};

    ghost is_copy = { λ old made. plain_method made ≡ plain_method old };

    #[tactic(auto, using(crate::proofs::ProgramCopies::list_copies))]
    fn try_clone(&self, alloc: Global) -> Result<Method, AllocError> {
        let params = self.params.try_clone(alloc)?;
        let result = copy_maybe_written(alloc, &self.result)?;
        let body = self.body.try_clone(alloc)?;
        Ok(Method {
            name: self.name,
            place: self.place,
            params,
            result,
            body,
        })
    }
}

impl TryClone for Class {
    ghost use Rattle.std.specs.Prelude.{◌≡◌};
    ghost use Rattle.py_tree.specs.PlainProgram.{plain_class};

    ghost is_copy = { λ old made. plain_class made ≡ plain_class old };

    #[tactic(auto, using(crate::proofs::ProgramCopies::list_copies))]
    fn try_clone(&self, alloc: Global) -> Result<Class, AllocError> {
        let members = self.members.try_clone(alloc)?;
        Ok(Class {
            name: self.name,
            place: self.place,
            members,
        })
    }
}

impl TryClone for Program {
    ghost use Rattle.std.specs.Prelude.{◌≡◌};
    ghost use Rattle.py_tree.specs.PlainProgram.{plain_program};

    ghost is_copy = { λ old made. plain_program made ≡ plain_program old };

    #[tactic(auto, using(crate::proofs::ProgramCopies::list_copies))]
    fn try_clone(&self, alloc: Global) -> Result<Program, AllocError> {
        Ok(Program {
            classes: self.classes.try_clone(alloc)?,
        })
    }
}

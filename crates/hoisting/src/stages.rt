//! What is known where code is hoisted, and the points that are made of it.

ghost use Rattle.std.specs.Prelude.{◌≡◌, [], ◌∷◌, ◌++◌, IfOk, OnOk};
ghost use Rattle.py_tree.specs.PlainTypes.{plain_ty};
ghost use Rattle.py_tree.specs.PlainExpressions.{plain_expr};
ghost use Rattle.py_tree.specs.ExpressionTypes as types;
ghost use Rattle.entity_types.specs.Views.{plain_local, plain_locals};
ghost use Rattle.block_code.specs.PlainVars.{plain_var, plain_vars};
ghost use Rattle.hoisting.specs.Stages as spec;
ghost use Rattle.hoisting.specs.Views.{plain_stage};

use block_code::{VarType, VarTypes};
use entity_types::narrow_here;
use entity_types::types::inside;
use flow_types::{FlowEnv, Local, Locals};
use py_tree::{Expr, Name, Ty};
use sf_list::{Sequence, TryClone};
use std::alloc::{AllocError, Global};

/// What is known at a point: the locals, with the temporaries of the statement at hand behind them.
#[derive(Drop)]
pub struct Stage {
    pub locals: Locals,
    /// The number of the next temporary.
    pub next: u32,
}

/// The type of a local as it is read.
fn read_ty(alloc: Global, local: &Local) -> Result<Ty, AllocError>
    ensures { IfOk result (λ ty. plain_ty ty ≡ types.read_ty (plain_local local.now)) }
{
    if local.not_none {
        return inside(&local.ty).try_clone(alloc);
    }
    local.ty.try_clone(alloc)
}

/// A local as a variable of a point.
fn var_of(alloc: Global, local: &Local) -> Result<VarType, AllocError>
    ensures { IfOk result (λ var. plain_var var ≡ record { name = local.now.name.0; ty = types.read_ty (plain_local local.now) }) }
{
    let ty = read_ty(alloc, local)?;
    Ok(VarType {
        name: local.name,
        ty,
    })
}

/// Adds a local, where it is surely assigned.
fn add_var(alloc: Global, vars: &mut VarTypes, local: &Local) -> Result<(), AllocError>
    ensures { OnOk result (plain_vars vars.new ≡ plain_vars vars.old ++ spec.surely (plain_local local.now ∷ [])) }
{
    if local.assigned {
        return vars.push(alloc, var_of(alloc, local)?);
    }
    Ok(())
}

/// The variables that are surely assigned, with the types that they are read with.
pub fn surely(alloc: Global, locals: &Locals) -> Result<VarTypes, AllocError>
    ensures { IfOk result (λ vars. plain_vars vars ≡ spec.surely (plain_locals locals.now)) }
{
    let mut made = Sequence::new(alloc);
    for local in locals.as_slice() {
        add_var(alloc, &mut made, local)?;
    }
    Ok(made)
}

/// A copy of locals.
#[tactic(auto, using(entity_types::proofs::EnvLaws::copied_locals))]
pub fn copy_locals(alloc: Global, locals: &Locals) -> Result<Locals, AllocError>
    ensures { IfOk result (λ made. plain_locals made ≡ plain_locals locals.now) }
{
    locals.try_clone(alloc)
}

/// Where a test is True, or False, and temporaries from this number on are unused.
#[tactic(auto, unfolding(py_tree::specs::FlowEnvironment::where_test))]
pub fn where_shown(
    alloc: Global,
    locals: &Locals,
    test: &Expr,
    truth: bool,
    next: u32,
) -> Result<Stage, AllocError>
    ensures { IfOk result (λ made. plain_stage made ≡ spec.where_shown truth (plain_expr test.now) (plain_locals locals.now) next) }
{
    let mut env = FlowEnv {
        class: 0,
        method: None,
        locals: copy_locals(alloc, locals)?,
    };
    narrow_here(&mut env, test, truth);
    Ok(Stage {
        locals: env.locals,
        next,
    })
}

impl Stage {
    pub fn copied(&self, alloc: Global) -> Result<Stage, AllocError>
        ensures { IfOk result (λ made. plain_stage made ≡ plain_stage self.now) }
    {
        let locals = copy_locals(alloc, &self.locals)?;
        Ok(Stage {
            locals,
            next: self.next,
        })
    }

    /// Puts a value of this type into the next temporary. Where no number is left below 2^32, it answers
    /// want of memory.
    pub fn add_temporary(&mut self, alloc: Global, ty: Ty) -> Result<Name, AllocError>
        ensures known { OnOk result (plain_stage self.new ≡ spec.with_temporary (plain_ty ty) (plain_stage self.old)) }
        ensures name { IfOk result (λ name. name.0 ≡ self.old.next) }
    {
        if self.next == u32::MAX {
            drop(ty);
            return Err(AllocError);
        }
        let name = Name(self.next);
        let local = Local {
            name,
            ty,
            assigned: true,
            not_none: false,
        };
        self.locals.push(alloc, local)?;
        self.next += 1;
        Ok(name)
    }
}

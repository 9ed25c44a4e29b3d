//! The method that is made flat, and what its program says of it.

ghost use Rattle.std.specs.Prelude.{◌≡◌, Some, map, option_map, unwrap_or, nat_eq, IfOk};
ghost use Rattle.std.specs.List.{position_from};
ghost use Rattle.py_tree.specs.PlainTypes.{plain_ty};
ghost use Rattle.py_tree.specs.PlainExpressions.{plain_expr, plain_exprs, exprs_of};
ghost use Rattle.py_tree.specs.PlainStatements.{plain_stmt, plain_option};
ghost use Rattle.py_tree.specs.ClassRules.{PlainTable, PlainSig};
ghost use Rattle.py_tree.specs.Flow as flow;
ghost use Rattle.py_tree.specs.Flow.{result_at};
ghost use Rattle.call_graph.specs.SuspendingCode as code;
ghost use Rattle.entity_tables.specs.Views.{plain_sig_param, plain_sig, plain_tables};
ghost use Rattle.entity_types.specs.Views.{plain_locals, plain_wanted};
ghost use Rattle.block_code.specs.PlainVars.{plain_vars};
ghost use Rattle.py_tree.specs.ExpressionTypes as types;
ghost use Rattle.hoisting.specs.Stages as spec;
ghost use Rattle.hoisting.specs.Views.{context_of, leaves_of, ty_in};

use crate::stages::{copy_locals, surely};
use block_code::VarTypes;
use call_graph::CallGraph;
use entity_tables::{ClassTable, Sig, SigParam};
use entity_types::lookup::{method_of, table_named};
use entity_types::type_expr;
use entity_types::types::class_of;
use flat_tree::{Callee, Created};
use flow_types::{FlowEnv, Locals, RuleError, Tables, step};
use py_tree::{Checked, Expr, Exprs, Name, Stmt, Ty, goes_on};
use sf_list::TryClone;
use std::alloc::{AllocError, Global};

/// A method of an accepted program, by the numbers of its class and of itself.
#[derive(Drop)]
pub struct Setting<'a> {
    pub program: &'a Checked,
    /// The tables of this program.
    pub tables: &'a Tables,
    /// The marks of this program.
    pub calls: &'a CallGraph,
    pub class: u32,
    pub method: u32,
}

/// The place of the class of this name.
#[tactic(auto, using(py_tree::proofs::ListWalks::place_laws))]
fn class_place(tables: &[ClassTable], name: Name) -> Option<usize>
    ensures { result ≡ position_from (λ (t : PlainTable). nat_eq t.name name.0) 0 (plain_tables tables.now) }
{
    for (i, table) in tables.iter().enumerate() {
        if table.name.0 == name.0 {
            return Some(i);
        }
    }
    None
}

/// The place of the method of this name.
#[tactic(auto, using(py_tree::proofs::ListWalks::place_laws))]
fn method_place(methods: &[Sig], name: Name) -> Option<usize>
    ensures { result ≡ position_from (λ (m : PlainSig). nat_eq m.name name.0) 0 (map plain_sig methods.now) }
{
    for (i, method) in methods.iter().enumerate() {
        if method.name.0 == name.0 {
            return Some(i);
        }
    }
    None
}

/// A place as a number, or 0 where there is none. Want of memory is answered where it has more than 32 bits.
fn number_of(place: Option<usize>) -> Result<u32, AllocError>
    ensures { IfOk result (λ number. number ≡ unwrap_or place 0) }
{
    match place {
        None => Ok(0),
        Some(place) => {
            if place > 4294967295 {
                Err(AllocError)
            } else {
                Ok(place as u32)
            }
        }
    }
}

/// The class of the receivers of this type, or the first name of all where they are no entities.
fn receiver_class(ty: &Ty) -> Name
    ensures { result.0 ≡ spec.receiver_class (plain_ty ty.now) }
{
    match class_of(ty) {
        None => Name(0),
        Some(class) => class,
    }
}

/// The methods of the class of this name.
fn methods_in(tables: &[ClassTable], class: Name) -> &[Sig]
    ensures { map plain_sig result.now ≡ spec.methods_in (types.table_named (plain_tables tables.now) class.0) }
{
    match table_named(tables, class) {
        None => &[],
        Some(table) => table.methods.as_slice(),
    }
}

/// The method of this number, in the class of that number.
pub fn sig_at(tables: &Tables, class: u32, method: u32) -> Option<&Sig>
    ensures { option_map (λ m. plain_sig m.now) result ≡ flow.sig_at (plain_tables tables.now) class method }
{
    let table = tables.get(class as usize)?;
    table.methods.get(method as usize)
}

impl Setting<'_> {
    /// What is known with these locals.
    fn env(&self, alloc: Global, locals: &Locals) -> Result<FlowEnv, AllocError>
        ensures class { IfOk result (λ env. env.class ≡ self.now.class) }
        ensures method { IfOk result (λ env. env.method ≡ Some self.now.method) }
        ensures locals { IfOk result (λ env. plain_locals env.locals ≡ plain_locals locals.now) }
    {
        let locals = copy_locals(alloc, locals)?;
        Ok(FlowEnv {
            class: self.class,
            method: Some(self.method),
            locals,
        })
    }

    /// The type of an expression, under a wanted one. In a method that keeps the rules there is one, and
    /// where there is none it counts as that of None.
    #[tactic(auto, using(py_tree::proofs::Views::ty_views))]
    pub fn ty_at(
        &self,
        alloc: Global,
        locals: &Locals,
        wanted: Option<&Ty>,
        expr: &Expr,
    ) -> Result<Ty, AllocError>
        ensures { IfOk result (λ ty. plain_ty ty ≡ ty_in self.now (plain_locals locals.now) (plain_wanted wanted.entry) (plain_expr expr.now)) }
    {
        let names = self.program.names();
        let env = self.env(alloc, locals)?;
        match type_expr(alloc, self.tables, names, &env, wanted, expr) {
            Ok(ty) => Ok(ty),
            Err(RuleError::Fault(_)) => Ok(Ty::Nil),
            Err(RuleError::NoMemory) => Err(AllocError),
        }
    }

    /// The locals behind a statement. Where it breaks a rule, they stay as they are.
    pub fn locals_behind(
        &self,
        alloc: Global,
        locals: &Locals,
        stmt: &Stmt,
    ) -> Result<Locals, AllocError>
        ensures { IfOk result (λ made. plain_locals made ≡ spec.locals_behind (context_of self.now) (plain_stmt stmt.now) (plain_locals locals.now)) }
    {
        let names = self.program.names();
        let mut env = self.env(alloc, locals)?;
        match step(alloc, self.tables, names, &mut env, stmt) {
            Ok(_) => Ok(env.locals),
            Err(RuleError::Fault(_)) => copy_locals(alloc, locals),
            Err(RuleError::NoMemory) => Err(AllocError),
        }
    }

    /// The point behind a statement, where it can be reached.
    pub fn point_behind(
        &self,
        alloc: Global,
        locals: &Locals,
        stmt: &Stmt,
    ) -> Result<Option<VarTypes>, AllocError>
        ensures { IfOk result (λ made. plain_option plain_vars made ≡ spec.point_behind (context_of self.now) (plain_stmt stmt.now) (plain_locals locals.now)) }
    {
        if !goes_on(stmt) {
            return Ok(None);
        }
        let behind = self.locals_behind(alloc, locals, stmt)?;
        let point = surely(alloc, &behind)?;
        Ok(Some(point))
    }

    /// The type of the method's result.
    #[tactic(auto, using(py_tree::proofs::Views::ty_views), unfolding(py_tree::specs::Flow::result_at))]
    pub fn result_ty(&self, alloc: Global) -> Result<Ty, AllocError>
        ensures { IfOk result (λ ty. plain_ty ty ≡ result_at (context_of self.now)) }
    {
        match sig_at(self.tables, self.class, self.method) {
            None => Ok(Ty::Nil),
            Some(sig) => sig.result.try_clone(alloc),
        }
    }

    /// Whether an expression may suspend.
    pub fn suspends(&self, expr: &Expr) -> bool
        ensures { result ≡ code.expr_suspends (leaves_of self.now) (plain_expr expr.now) }
    {
        self.calls.expr_suspends(self.program, self.class, expr)
    }

    /// Whether one of these expressions may suspend.
    pub fn any_suspends(&self, exprs: &Exprs) -> bool
        ensures { result ≡ code.exprs_suspend (leaves_of self.now) (exprs_of (plain_exprs exprs.now)) }
    {
        self.calls.exprs_suspend(self.program, self.class, exprs)
    }

    /// Whether a statement may suspend.
    pub fn stmt_suspends(&self, stmt: &Stmt) -> bool
        ensures { result ≡ code.stmt_suspends (leaves_of self.now) (plain_stmt stmt.now) }
    {
        self.calls.stmt_suspends(self.program, self.class, stmt)
    }

    /// Whether a call of the method of this name on this receiver leaves.
    pub fn leaves(&self, on: &Expr, name: Name) -> bool
        ensures { result ≡ leaves_of self.now (plain_expr on.now) name.0 }
    {
        self.calls.call_leaves(self.program, self.class, on, name)
    }

    /// The method of this name, of an entity of this type.
    pub fn callee(&self, ty: &Ty, name: Name) -> Result<Callee, AllocError>
        ensures { IfOk result (λ callee. callee ≡ spec.callee_of (context_of self.now) (plain_ty ty.now) name.0) }
    {
        let tables = self.tables.as_slice();
        let receiver = receiver_class(ty);
        let class = number_of(class_place(tables, receiver))?;
        let method = number_of(method_place(methods_in(tables, receiver), name))?;
        Ok(Callee {
            name,
            class,
            method,
        })
    }

    /// The class of this name, of which an entity is created.
    pub fn created(&self, name: Name) -> Result<Created, AllocError>
        ensures { IfOk result (λ created. created ≡ spec.created_of (context_of self.now) name.0) }
    {
        let class = number_of(class_place(self.tables.as_slice(), name))?;
        Ok(Created { name, class })
    }

    /// The parameters of the method of this name, of an entity of this type.
    pub fn method_params(&self, ty: &Ty, name: Name) -> &[SigParam]
        ensures { map plain_sig_param result.now ≡ spec.method_params (context_of self.now) (plain_ty ty.now) name.0 }
    {
        match class_of(ty) {
            None => &[],
            Some(class) => match method_of(self.tables.as_slice(), class, name) {
                None => &[],
                Some(sig) => sig.params.as_slice(),
            },
        }
    }

    /// The parameters of a creation of an entity of the class of this name.
    pub fn init_params(&self, name: Name) -> &[SigParam]
        ensures { map plain_sig_param result.now ≡ spec.init_params (types.table_named (plain_tables self.now.tables.now) name.0) }
    {
        match table_named(self.tables.as_slice(), name) {
            None => &[],
            Some(table) => table.init.as_slice(),
        }
    }
}

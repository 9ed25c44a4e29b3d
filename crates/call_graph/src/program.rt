//! The methods of a program that may suspend.

ghost use Rattle.std.specs.Prelude.{◌≡◌, ◌<◌, ◌↔◌, ℕ, IsTrue, List, [], ◌∷◌, ◌++◌, map, length, slice_index_or, IfOk, OnOk};
ghost use Rattle.py_tree.specs.PlainProgram.{PlainProgram, plain_class, plain_program, plain_method};
ghost use Rattle.py_tree.specs.ClassRules.{methods_of};
ghost use Rattle.py_tree.specs.CheckedViews.{checked_program, checked_names};
ghost use Rattle.call_graph.specs.Suspending as suspending;
ghost use Rattle.call_graph.specs.Marks as spec;
ghost use Rattle.call_graph.specs.SuspendingCode as code;
ghost use Rattle.py_tree.specs.PlainExpressions.{plain_expr, plain_exprs, exprs_of};
ghost use Rattle.py_tree.specs.PlainStatements.{plain_stmt, plain_stmts, stmts_of};
ghost use Rattle.py_tree.specs.ClassViews.{numbers_of};

use crate::closure::{Marks, marks_of};
use crate::sites::Sites;
use crate::stmts::find_in_body;
use crate::suspending::{call_leaves, expr_suspends, exprs_suspend, stmt_suspends, stmts_suspend};
use py_tree::{Checked, Class, Expr, Exprs, Method, Name, Names, Program, Stmt, is_called_by_name};
use sf_list::Sequence;
use std::alloc::{AllocError, Global};
use std::marker::Model;

/// Which methods of a program may suspend.
#[derive(Drop)]
pub struct CallGraph {
    classes: Sequence<Marks>,
}

impl Model for CallGraph {
    ghost use Rattle.std.specs.Prelude.{List, Bool};
    ghost use Rattle.std.specs.Coded.{coded_list, coded_bool};

    ghost Value = { List (List Bool) };

    ghost coded = { coded_list (coded_list coded_bool) };

    ghost view = { λ graph. graph.classes };
}

impl CallGraph {
    /// Whether the method of this number may suspend, in the class of that number.
    pub fn may_suspend(&self, class: u32, method: u32) -> bool
        requires class { class < length self.now }
        requires method { method < length (slice_index_or self.now class []) }
        ensures mark { result ≡ spec.is_marked self.now class method }
        ensures least { (names : List (List ℕ)) (program : PlainProgram) → spec.IsGraph names program self.now
            → (IsTrue result ↔ suspending.MaySuspend names program class method) }
    {
        self.classes.as_slice()[class as usize].as_slice()[method as usize]
    }

    /// Whether the method of this number, in the class of that number, has a mark.
    pub(crate) fn is_marked(&self, class: u32, method: u32) -> bool
        ensures { result ≡ spec.is_marked self.now class method }
    {
        let class = class as usize;
        class < self.classes.len() && has_mark(self.classes.as_slice()[class].as_slice(), method)
    }

    /// Whether an expression may suspend, in a method of the class of this number.
    pub fn expr_suspends(&self, program: &Checked, class: u32, expr: &Expr) -> bool
        ensures { result ≡ code.expr_suspends (code.leaving_in program.now self.now class) (plain_expr expr.now) }
    {
        expr_suspends(self, program, class, expr)
    }

    /// Whether a call of the method of this name on this receiver leaves, in a method of the class of this
    /// number.
    pub fn call_leaves(&self, program: &Checked, class: u32, on: &Expr, name: Name) -> bool
        ensures { result ≡ code.leaving_in program.now self.now class (plain_expr on.now) name.0 }
    {
        call_leaves(self, program, class, on, name)
    }

    /// Whether one of these expressions may suspend, in a method of the class of this number.
    pub fn exprs_suspend(&self, program: &Checked, class: u32, exprs: &Exprs) -> bool
        ensures { result ≡ code.exprs_suspend (code.leaving_in program.now self.now class) (exprs_of (plain_exprs exprs.now)) }
    {
        exprs_suspend(self, program, class, exprs)
    }

    /// Whether a statement may suspend, in a method of the class of this number.
    pub fn stmt_suspends(&self, program: &Checked, class: u32, stmt: &Stmt) -> bool
        ensures { result ≡ code.stmt_suspends (code.leaving_in program.now self.now class) (plain_stmt stmt.now) }
    {
        stmt_suspends(self, program, class, stmt)
    }

    /// Whether statements may suspend, in a method of the class of this number.
    pub fn stmts_suspend(&self, program: &Checked, class: u32, stmts: &[Stmt]) -> bool
        ensures { result ≡ code.stmts_suspend (code.leaving_in program.now self.now class) (stmts_of (plain_stmts stmts.now)) }
    {
        stmts_suspend(self, program, class, stmts)
    }
}

fn has_mark(marks: &[bool], method: u32) -> bool
    ensures { result ≡ spec.marked marks.now method }
{
    let method = method as usize;
    method < marks.len() && marks[method]
}

/// Adds the name of a member, where it is called by name.
#[tactic(auto, unfolding(py_tree::specs::ClassRules::methods_of))]
fn add_name(
    alloc: Global,
    made: &mut Sequence<Name>,
    names: &Names,
    member: &Method,
) -> Result<(), AllocError>
    ensures { OnOk result (numbers_of made.new ≡ numbers_of made.old ++ suspending.method_names (methods_of names.now (plain_method member.now ∷ []))) }
{
    if is_called_by_name(names, member.name) {
        return made.push(alloc, member.name);
    }
    Ok(())
}

/// The names of the methods of a class that are called by name.
#[tactic(auto, using(crate::proofs::MethodLaws::name_laws))]
fn called_names(
    alloc: Global,
    names: &Names,
    members: &[Method],
) -> Result<Sequence<Name>, AllocError>
    ensures { IfOk result (λ made. numbers_of made ≡ suspending.method_names (methods_of names.now (map plain_method members.now))) }
{
    let mut made = Sequence::new(alloc);
    for member in members {
        add_name(alloc, &mut made, names, member)?;
    }
    Ok(made)
}

/// The calls and creations of a method.
fn method_sites(
    alloc: Global,
    classes: &[Class],
    methods: &[Name],
    method: &Method,
) -> Result<Sites, AllocError>
    ensures { IfOk result (λ found. found ≡ suspending.method_sites (map plain_class classes.now) (numbers_of methods.now) (plain_method method.now)) }
{
    let mut found = Sequence::new(alloc);
    find_in_body(alloc, classes, methods, method.body.as_slice(), &mut found)?;
    Ok(found)
}

/// Adds the calls and creations of a member, where it is called by name.
#[tactic(auto, unfolding(py_tree::specs::ClassRules::methods_of))]
fn add_row(
    alloc: Global,
    rows: &mut Sequence<Sites>,
    classes: &[Class],
    names: &Names,
    methods: &[Name],
    member: &Method,
) -> Result<(), AllocError>
    ensures { OnOk result (rows.new ≡ rows.old ++ map (suspending.method_sites (map plain_class classes.now) (numbers_of methods.now))
        (methods_of names.now (plain_method member.now ∷ []))) }
{
    if is_called_by_name(names, member.name) {
        return rows.push(alloc, method_sites(alloc, classes, methods, member)?);
    }
    Ok(())
}

/// The calls and creations of each method of a class that is called by name.
#[tactic(auto, using(crate::proofs::MethodLaws::row_laws))]
fn members_sites(
    alloc: Global,
    classes: &[Class],
    names: &Names,
    methods: &[Name],
    members: &[Method],
) -> Result<Sequence<Sites>, AllocError>
    ensures { IfOk result (λ rows. rows ≡ map (suspending.method_sites (map plain_class classes.now) (numbers_of methods.now))
        (methods_of names.now (map plain_method members.now))) }
{
    let mut rows = Sequence::new(alloc);
    for member in members {
        add_row(alloc, &mut rows, classes, names, methods, member)?;
    }
    Ok(rows)
}

/// A mark for each method of a class: whether it may suspend.
#[tactic(auto, unfolding(crate::specs::Suspending::class_sites))]
fn class_marks(
    alloc: Global,
    classes: &[Class],
    names: &Names,
    class: &Class,
) -> Result<Marks, AllocError>
    ensures { IfOk result (spec.AreExact (suspending.class_sites names.now (map plain_class classes.now) (plain_class class.now))) }
{
    let members = class.members.as_slice();
    let methods = called_names(alloc, names, members)?;
    let rows = members_sites(alloc, classes, names, methods.as_slice(), members)?;
    marks_of(alloc, rows.as_slice())
}

/// A mark for each method of each class of a program: whether it may suspend.
#[tactic(auto, using(crate::proofs::GraphLaws::graph_laws))]
pub(crate) fn program_marks(
    alloc: Global,
    program: &Program,
    names: &Names,
) -> Result<Sequence<Marks>, AllocError>
    ensures { IfOk result (spec.IsGraph names.now (plain_program program.now)) }
{
    let classes = program.classes.as_slice();
    let mut made = Sequence::new(alloc);
    for class in classes {
        made.push(alloc, class_marks(alloc, classes, names, class)?)?;
    }
    Ok(made)
}

/// The methods of an accepted program that may suspend.
pub fn graph(alloc: Global, program: &Checked) -> Result<CallGraph, AllocError>
    ensures { IfOk result (spec.IsGraph (checked_names program.now) (checked_program program.now)) }
{
    let classes = program_marks(alloc, program.program(), program.names())?;
    Ok(CallGraph { classes })
}

//! What runs before a `for` goes round: the list or the ends of the range, in temporaries, and what is known where it begins.

ghost use Rattle.std.specs.Prelude.{◌≡◌, ◌+◌, IfOk, OnOk};
ghost use Rattle.py_tree.specs.PlainTypes.{plain_ty};
ghost use Rattle.flat_tree.specs.PlainFlat.{plain_flat_stmts};
ghost use Rattle.block_code.specs.PlainVars.{plain_vars};
ghost use Rattle.hoisting.specs.HoistStatements as spec;
ghost use Rattle.hoisting.specs.Views.{plain_stage};
ghost use Rattle.method_hoister.specs.StatementViews as gives;

use crate::loops::{ListNames, head_locals, list_start, with_local};
use block_code::VarTypes;
use expression_hoister::kinds::posed;
use expression_hoister::value;
use flat_tree::FlatStmts;
use hoisting::parts::settle;
use hoisting::{Setting, Stage, surely};
use py_tree::nodes::int_of;
use py_tree::{Expr, Name, Place, Stmts, Ty};
use sf_list::TryClone;
use std::alloc::{AllocError, Global};

/// What runs before a loop over a list.
#[derive(Drop)]
pub struct ListBefore {
    pub before: FlatStmts,
    pub names: ListNames,
}

/// A list of this type, in a temporary, as it is before a loop over it.
pub fn list_before(
    alloc: Global,
    setting: &Setting<'_>,
    stage: &mut Stage,
    place: Place,
    ty: &Ty,
    expr: &Expr,
) -> Result<ListBefore, AllocError>
    ensures list { IfOk result (λ made. made.names.list.0 ≡ (gives.behind_value setting.now expr.now stage.old).next) }
    ensures place { IfOk result (λ made. made.names.place.0 ≡ made.names.list.0 + 1) }
    ensures before { IfOk result (λ made. plain_flat_stmts made.before ≡ gives.list_before_in setting.now place ty.now expr.now stage.old) }
    ensures known { OnOk result (plain_stage stage.new ≡ spec.list_stage (plain_ty ty.now) (gives.behind_value setting.now expr.now stage.old)) }
{
    let hoisted = value(alloc, setting, stage, None, expr)?;
    let list = Name(stage.next);
    let hoisted = settle(alloc, stage, place, ty.try_clone(alloc)?, hoisted)?;
    let index = stage.add_temporary(alloc, Ty::Int)?;
    let empty = stage.add_temporary(alloc, ty.try_clone(alloc)?)?;
    let names = ListNames {
        list,
        place: index,
        empty,
    };
    let before = list_start(alloc, place, names, hoisted.before)?;
    Ok(ListBefore { before, names })
}

/// An end of a range, as a whole number in a temporary.
#[derive(Drop)]
pub struct RangeEnd {
    pub before: FlatStmts,
    pub name: Name,
}

/// An end of a range.
fn range_end(
    alloc: Global,
    setting: &Setting<'_>,
    stage: &mut Stage,
    place: Place,
    expr: &Expr,
) -> Result<RangeEnd, AllocError>
    ensures name { IfOk result (λ made. made.name.0 ≡ (gives.behind_value setting.now expr.now stage.old).next) }
    ensures before { IfOk result (λ made. plain_flat_stmts made.before ≡ (gives.range_end_in setting.now place expr.now stage.old).before) }
    ensures known { OnOk result (plain_stage stage.new ≡ (gives.range_end_in setting.now place expr.now stage.old).stage) }
{
    let hoisted = value(alloc, setting, stage, None, expr)?;
    let hoisted = posed(alloc, stage, place, hoisted)?;
    let name = Name(stage.next);
    let hoisted = settle(alloc, stage, place, Ty::Int, hoisted)?;
    Ok(RangeEnd {
        before: hoisted.before,
        name,
    })
}

/// The start of a range, which is 0 where none is given.
fn range_start(
    alloc: Global,
    setting: &Setting<'_>,
    stage: &mut Stage,
    place: Place,
    start: &Option<Expr>,
) -> Result<RangeEnd, AllocError>
    ensures name { IfOk result (λ made. made.name.0 ≡ gives.start_number_in setting.now place start.now stage.old) }
    ensures before { IfOk result (λ made. plain_flat_stmts made.before ≡ (gives.range_start_in setting.now place start.now stage.old).before) }
    ensures known { OnOk result (plain_stage stage.new ≡ (gives.range_start_in setting.now place start.now stage.old).stage) }
{
    match start {
        Some(start) => range_end(alloc, setting, stage, place, start),
        None => {
            let zero = int_of(place, 0);
            range_end(alloc, setting, stage, place, &zero)
        }
    }
}

/// What runs before a loop over a range.
#[derive(Drop)]
pub struct RangeBefore {
    pub before: FlatStmts,
    pub from: Name,
    pub to: Name,
}

/// The ends of a range, in temporaries.
pub fn range_before(
    alloc: Global,
    setting: &Setting<'_>,
    stage: &mut Stage,
    place: Place,
    start: &Option<Expr>,
    end: &Expr,
) -> Result<RangeBefore, AllocError>
    ensures from { IfOk result (λ made. made.from.0 ≡ gives.start_number_in setting.now place start.now stage.old) }
    ensures to { IfOk result (λ made. made.to.0 ≡ gives.end_number_in setting.now place start.now end.now stage.old) }
    ensures before { IfOk result (λ made. plain_flat_stmts made.before ≡ gives.range_before_in setting.now place start.now end.now stage.old) }
    ensures known { OnOk result (plain_stage stage.new ≡ gives.range_stage_in setting.now place start.now end.now stage.old) }
{
    let from = range_start(alloc, setting, stage, place, start)?;
    let to = range_end(alloc, setting, stage, place, end)?;
    let mut before = from.before;
    before.append(alloc, to.before)?;
    Ok(RangeBefore {
        before,
        from: from.name,
        to: to.name,
    })
}

/// Where the body of a loop begins, and what is assigned at its head, before each test.
#[derive(Drop)]
pub struct Inside {
    pub head: VarTypes,
    /// The same, once more.
    pub start: VarTypes,
    pub stage: Stage,
}

/// Where the body of a `for` begins, of which the name has this type.
pub fn inside_for(
    alloc: Global,
    stage: &Stage,
    name: Name,
    ty: Ty,
    body: &Stmts,
) -> Result<Inside, AllocError>
    ensures head { IfOk result (λ made. plain_vars made.head ≡ gives.head_in name body.now stage.now) }
    ensures start { IfOk result (λ made. plain_vars made.start ≡ gives.head_in name body.now stage.now) }
    ensures stage { IfOk result (λ made. plain_stage made.stage ≡ gives.body_stage_in name ty body.now stage.now) }
{
    let locals = head_locals(alloc, &stage.locals, name, body)?;
    let head = surely(alloc, &locals)?;
    let start = surely(alloc, &locals)?;
    let locals = with_local(alloc, locals, name, ty)?;
    Ok(Inside {
        head,
        start,
        stage: Stage {
            locals,
            next: stage.next,
        },
    })
}

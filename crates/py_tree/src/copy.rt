//! Copies of trees. Each has the plain tree of its original.

ghost use Rattle.std.specs.Prelude.{◌≡◌, IfOk};
ghost use Rattle.py_tree.specs.declared.names.Place.{Place as APlace};
ghost use Rattle.py_tree.specs.PlainTypes.{plain_ty, plain_written_kind, plain_written};
ghost use Rattle.py_tree.specs.PlainExpressions.{plain_kind, plain_expr, plain_exprs, plain_link, plain_links};

use crate::expr::{Expr, ExprKind, Exprs, Link, Links};
use crate::ty::{Ty, WrittenKind, WrittenTy};
use sf_list::{Sequence, TryClone};
use std::alloc::{AllocError, Global};

#[tactic(auto, using(crate::proofs::Views::ty_views))]
fn copy_ty(alloc: Global, ty: &Ty) -> Result<Ty, AllocError>
    ensures { IfOk result (λ made. plain_ty made ≡ plain_ty ty.now) }
{
    match ty {
        Ty::Int => Ok(Ty::Int),
        Ty::Bool => Ok(Ty::Bool),
        Ty::Str => Ok(Ty::Str),
        Ty::Nil => Ok(Ty::Nil),
        Ty::List(element) => Ok(Ty::List(Box::new(alloc, copy_ty(alloc, element)?)?)),
        Ty::Optional(inner) => Ok(Ty::Optional(Box::new(alloc, copy_ty(alloc, inner)?)?)),
        Ty::Entity(class) => Ok(Ty::Entity(*class)),
    }
}

impl TryClone for Ty {
    ghost use Rattle.std.specs.Prelude.{◌≡◌};
    ghost use Rattle.py_tree.specs.PlainTypes.{plain_ty};

    ghost is_copy = { λ old made. plain_ty made ≡ plain_ty old };

    fn try_clone(&self, alloc: Global) -> Result<Ty, AllocError> {
        copy_ty(alloc, self)
    }
}

#[cycle(copy_written)]
pub(crate) fn copy_written(alloc: Global, ty: &WrittenTy) -> Result<WrittenTy, AllocError>
    ensures { IfOk result (λ made. plain_written made ≡ plain_written ty.now) }
{
    let kind = copy_written_kind(alloc, &ty.kind)?;
    Ok(WrittenTy {
        place: ty.place,
        kind,
    })
}

#[cycle(copy_written)]
#[tactic(auto, using(crate::proofs::Views::written_views))]
fn copy_written_kind(alloc: Global, kind: &WrittenKind) -> Result<WrittenKind, AllocError>
    ensures { IfOk result (λ made. (at : APlace) → plain_written_kind made at ≡ plain_written_kind kind.now at) }
{
    match kind {
        WrittenKind::Int => Ok(WrittenKind::Int),
        WrittenKind::Bool => Ok(WrittenKind::Bool),
        WrittenKind::Str => Ok(WrittenKind::Str),
        WrittenKind::Nil => Ok(WrittenKind::Nil),
        WrittenKind::List(element) => {
            let element = copy_written(alloc, element)?;
            Ok(WrittenKind::List(Box::new(alloc, element)?))
        }
        WrittenKind::Optional(inner) => {
            let inner = copy_written(alloc, inner)?;
            Ok(WrittenKind::Optional(Box::new(alloc, inner)?))
        }
        WrittenKind::Entity(class) => Ok(WrittenKind::Entity(*class)),
    }
}

impl TryClone for WrittenTy {
    ghost use Rattle.std.specs.Prelude.{◌≡◌};
    ghost use Rattle.py_tree.specs.PlainTypes.{plain_written};

    ghost is_copy = { λ old made. plain_written made ≡ plain_written old };

    fn try_clone(&self, alloc: Global) -> Result<WrittenTy, AllocError> {
        copy_written(alloc, self)
    }
}

#[cycle(copy_expr)]
pub(crate) fn copy_expr(alloc: Global, expr: &Expr) -> Result<Expr, AllocError>
    ensures { IfOk result (λ made. plain_expr made ≡ plain_expr expr.now) }
{
    let kind = copy_kind(alloc, &expr.kind)?;
    Ok(Expr {
        place: expr.place,
        kind,
    })
}

#[cycle(copy_expr)]
fn copy_boxed(alloc: Global, expr: &Expr) -> Result<Box<Expr>, AllocError>
    ensures { IfOk result (λ made. plain_expr made.value ≡ plain_expr expr.now) }
{
    Ok(Box::new(alloc, copy_expr(alloc, expr)?)?)
}

#[cycle(copy_expr)]
fn copy_exprs(alloc: Global, exprs: &Exprs) -> Result<Exprs, AllocError>
    ensures { IfOk result (λ made. plain_exprs made ≡ plain_exprs exprs.now) }
{
    let mut made = Sequence::new(alloc);
    for expr in exprs.as_slice() {
        made.push(alloc, copy_expr(alloc, expr)?)?;
    }
    Ok(made)
}

#[cycle(copy_expr)]
fn copy_link(alloc: Global, link: &Link) -> Result<Link, AllocError>
    ensures { IfOk result (λ made. plain_link made ≡ plain_link link.now) }
{
    let right = copy_expr(alloc, &link.right)?;
    Ok(Link {
        op: link.op,
        place: link.place,
        right,
    })
}

#[cycle(copy_expr)]
fn copy_links(alloc: Global, links: &Links) -> Result<Links, AllocError>
    ensures { IfOk result (λ made. plain_links made ≡ plain_links links.now) }
{
    let mut made = Sequence::new(alloc);
    for link in links.as_slice() {
        made.push(alloc, copy_link(alloc, link)?)?;
    }
    Ok(made)
}

#[cycle(copy_expr)]
#[tactic(auto, using(crate::proofs::Views::expr_views))]
fn copy_kind(alloc: Global, kind: &ExprKind) -> Result<ExprKind, AllocError>
    ensures { IfOk result (λ made. (at : APlace) → plain_kind made at ≡ plain_kind kind.now at) }
{
    match kind {
        ExprKind::Int(n) => Ok(ExprKind::Int(*n)),
        ExprKind::Bool(b) => Ok(ExprKind::Bool(*b)),
        ExprKind::Str(text) => Ok(ExprKind::Str(*text)),
        ExprKind::Nil => Ok(ExprKind::Nil),
        ExprKind::Var(name) => Ok(ExprKind::Var(*name)),
        ExprKind::SelfRef => Ok(ExprKind::SelfRef),
        ExprKind::Attr(on, name) => Ok(ExprKind::Attr(copy_boxed(alloc, on)?, *name)),
        ExprKind::Call(on, name, args) => {
            let on = copy_boxed(alloc, on)?;
            Ok(ExprKind::Call(on, *name, copy_exprs(alloc, args)?))
        }
        ExprKind::Apply(name, args) => Ok(ExprKind::Apply(*name, copy_exprs(alloc, args)?)),
        ExprKind::Index(on, index) => {
            let on = copy_boxed(alloc, on)?;
            Ok(ExprKind::Index(on, copy_boxed(alloc, index)?))
        }
        ExprKind::List(items) => Ok(ExprKind::List(copy_exprs(alloc, items)?)),
        ExprKind::Neg(a) => Ok(ExprKind::Neg(copy_boxed(alloc, a)?)),
        ExprKind::Pos(a) => Ok(ExprKind::Pos(copy_boxed(alloc, a)?)),
        ExprKind::Not(a) => Ok(ExprKind::Not(copy_boxed(alloc, a)?)),
        ExprKind::Chain(first, links) => {
            let first = copy_boxed(alloc, first)?;
            Ok(ExprKind::Chain(first, copy_links(alloc, links)?))
        }
        ExprKind::And(items) => Ok(ExprKind::And(copy_exprs(alloc, items)?)),
        ExprKind::Or(items) => Ok(ExprKind::Or(copy_exprs(alloc, items)?)),
        ExprKind::Compare(op, at, left, right) => {
            let left = copy_boxed(alloc, left)?;
            Ok(ExprKind::Compare(*op, *at, left, copy_boxed(alloc, right)?))
        }
        ExprKind::IsNone(a, positive) => Ok(ExprKind::IsNone(copy_boxed(alloc, a)?, *positive)),
        ExprKind::Cond { test, yes, no } => {
            let test = copy_boxed(alloc, test)?;
            let yes = copy_boxed(alloc, yes)?;
            let no = copy_boxed(alloc, no)?;
            Ok(ExprKind::Cond { test, yes, no })
        }
    }
}

impl TryClone for Expr {
    ghost use Rattle.std.specs.Prelude.{◌≡◌};
    ghost use Rattle.py_tree.specs.PlainExpressions.{plain_expr};

    ghost is_copy = { λ old made. plain_expr made ≡ plain_expr old };

    fn try_clone(&self, alloc: Global) -> Result<Expr, AllocError> {
        copy_expr(alloc, self)
    }
}

impl TryClone for Link {
    ghost use Rattle.std.specs.Prelude.{◌≡◌};
    ghost use Rattle.py_tree.specs.PlainExpressions.{plain_link};

    ghost is_copy = { λ old made. plain_link made ≡ plain_link old };

    fn try_clone(&self, alloc: Global) -> Result<Link, AllocError> {
        copy_link(alloc, self)
    }
}

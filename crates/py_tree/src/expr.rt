//! Expressions (Python Language Reference, section 6).

use crate::names::{Name, Place, PlacedName};
use sf_list::Sequence;

/// A binary operator on numbers, texts or lists.
#[derive(Clone, Copy, PartialEq, Eq, Debug)]
pub enum BinOp {
    Add,
    Sub,
    Mul,
    FloorDiv,
    Mod,
}

/// A comparison.
#[derive(Clone, Copy, PartialEq, Eq, Debug)]
pub enum Cmp {
    Eq,
    Ne,
    Lt,
    Gt,
    Le,
    Ge,
}

/// An expression, with the place of its first token.
#[cycle(expr)]
#[derive(Drop)]
pub struct Expr {
    pub place: Place,
    pub kind: ExprKind,
}

pub type Exprs = Sequence<Expr>;

#[cycle(expr)]
pub enum ExprKind {
    Int(i128),
    Bool(bool),
    /// A text literal, which stands in the table of names.
    Str(Name),
    /// `None`.
    Nil,
    Var(Name),
    /// The word `self`.
    SelfRef,
    /// `e.f`.
    Attr(Box<Expr>, PlacedName),
    /// `e.m(args)`.
    Call(Box<Expr>, PlacedName, Exprs),
    /// `f(args)` or `C(args)`.
    Apply(Name, Exprs),
    /// `e[i]`.
    Index(Box<Expr>, Box<Expr>),
    List(Exprs),
    Neg(Box<Expr>),
    Pos(Box<Expr>),
    Not(Box<Expr>),
    /// A run of operators of one rank, taken from the left.
    Chain(Box<Expr>, Links),
    And(Exprs),
    Or(Exprs),
    /// A comparison, with the place of its operator.
    Compare(Cmp, Place, Box<Expr>, Box<Expr>),
    /// `e is None` where true, else `e is not None`.
    IsNone(Box<Expr>, bool),
    Cond {
        test: Box<Expr>,
        yes: Box<Expr>,
        no: Box<Expr>,
    },
}

/// Gives each owned part to a call of `drop`, so that a function that lets a tree go has one step for it.
impl Drop for ExprKind {
    #[cycle(expr_drop)]
    fn drop(self) {
        match self {
            ExprKind::Int(_)
            | ExprKind::Bool(_)
            | ExprKind::Str(_)
            | ExprKind::Nil
            | ExprKind::Var(_)
            | ExprKind::SelfRef => {}
            ExprKind::Attr(on, _) => drop(on),
            ExprKind::Call(on, _, args) => {
                drop(on);
                drop(args);
            }
            ExprKind::Apply(_, args) => drop(args),
            ExprKind::Index(on, at) => {
                drop(on);
                drop(at);
            }
            ExprKind::List(items) => drop(items),
            ExprKind::Neg(of) => drop(of),
            ExprKind::Pos(of) => drop(of),
            ExprKind::Not(of) => drop(of),
            ExprKind::Chain(first, links) => {
                drop(first);
                drop(links);
            }
            ExprKind::And(parts) => drop(parts),
            ExprKind::Or(parts) => drop(parts),
            ExprKind::Compare(_, _, left, right) => {
                drop(left);
                drop(right);
            }
            ExprKind::IsNone(of, _) => drop(of),
            ExprKind::Cond { test, yes, no } => {
                drop(test);
                drop(yes);
                drop(no);
            }
        }
    }
}

/// An operator with its place and what stands right of it.
#[cycle(expr)]
#[derive(Drop)]
pub struct Link {
    pub op: BinOp,
    pub place: Place,
    pub right: Expr,
}

pub type Links = Sequence<Link>;

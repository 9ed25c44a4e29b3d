//! Chains of receivers, taken apart in a loop: `e.m(args)[i].m()` may be thousands of links long.

ghost use Rattle.std.specs.Prelude.{◌≡◌, ◌<◌, Some, IfSome, IfOk, map};
ghost use Rattle.py_tree.specs.PlainExpressions.{plain_expr};
ghost use Rattle.py_tree.specs.Bounded.{expr_size};
ghost use Rattle.program_meaning.specs.Trailers.{last_trailer as the_last_trailer, EndsWith};
ghost use Rattle.source_meaning.specs.TrailerViews.{plain_trailer};

use py_tree::{Expr, ExprKind, Name};
use std::alloc::{AllocError, Global};

/// What stands behind a receiver.
#[derive(Clone, Copy, Drop)]
pub(crate) enum Trailer<'a> {
    /// `.m(args)`.
    Call(Name, &'a [Expr]),
    /// `[i]`.
    Index(&'a Expr),
}

/// The receiver of a call, or of an index whose list has to be evaluated, and what stands behind it.
#[tactic(auto, using(program_meaning::proofs::TrailerLaws::trailers))]
pub(crate) fn last_trailer(expr: &Expr) -> Option<(&Expr, Trailer<'_>)>
    ensures { IfSome result (λ r. the_last_trailer (plain_expr expr.now) ≡ Some (plain_expr r.0.now, plain_trailer r.1)) }
{
    match &expr.kind {
        ExprKind::Call(on, name, args) => Some((on, Trailer::Call(name.name, args.as_slice()))),
        ExprKind::Index(on, index) => match &on.kind {
            ExprKind::Var(_) | ExprKind::Attr(..) => None,
            _ => Some((on, Trailer::Index(index))),
        },
        _ => None,
    }
}

/// An expression as its innermost receiver, and the trailers behind that, the last one first.
pub(crate) struct Chain<'a> {
    pub(crate) innermost: &'a Expr,
    pub(crate) trailers: Vec<Trailer<'a>>,
}

/// The chain of an expression that is this receiver with this trailer.
pub(crate) fn chain_of<'a>(
    alloc: Global,
    expr: &'a Expr,
    on: &'a Expr,
    last: Trailer<'a>,
) -> Result<Chain<'a>, AllocError>
    requires { the_last_trailer (plain_expr expr.now) ≡ Some (plain_expr on.now, plain_trailer last) }
    ensures chain { IfOk result (λ c. EndsWith (plain_expr expr.now) (map plain_trailer c.trailers.items) (plain_expr c.innermost.now)) }
    ensures smaller { IfOk result (λ c. expr_size (plain_expr c.innermost.now) < expr_size (plain_expr expr.now)) }
{
    let mut trailers = Vec::new(alloc);
    trailers.push(last)?;
    let mut innermost = on;
    while let Some((on, trailer)) = last_trailer(innermost) {
        trailers.push(trailer)?;
        innermost = on;
    }
    Ok(Chain {
        innermost,
        trailers,
    })
}

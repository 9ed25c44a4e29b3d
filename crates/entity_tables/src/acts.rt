//! What the expressions of `__init__` may do: compute with parameters and the fields declared before.

ghost use Rattle.std.specs.Prelude.{◌≡◌, map};
ghost use Rattle.py_tree.specs.PlainExpressions.{plain_expr, plain_exprs, exprs_of, plain_links, links_of};
ghost use Rattle.py_tree.specs.PlainStatements.{plain_option};
ghost use Rattle.py_tree.specs.PlainProgram.{plain_class};
ghost use Rattle.py_tree.specs.ClassRules as spec;
ghost use Rattle.py_tree.specs.ClassViews.{numbers_of};

use py_tree::{Class, Expr, ExprKind, Exprs, Links, Name, has_class, is_self};

/// Whether this is one of these names.
#[tactic(auto, unfolding(py_tree::specs::ClassRules::is_field))]
pub fn has_field(fields: &[Name], name: Name) -> bool
    ensures { result ≡ spec.is_field (numbers_of fields.now) name.0 }
{
    for field in fields {
        if field.0 == name.0 {
            return true;
        }
    }
    false
}

/// Whether an expression calls a method, makes an entity, or has `self` for more than to read one of
/// these fields.
#[cycle(acts)]
#[tactic(auto, using(crate::proofs::ExprRules::acts_rules))]
pub fn acts(classes: &[Class], fields: &[Name], expr: &Expr) -> bool
    ensures { result ≡ spec.acts (map plain_class classes.now) (numbers_of fields.now) (plain_expr expr.now) }
{
    match &expr.kind {
        ExprKind::Int(_)
        | ExprKind::Bool(_)
        | ExprKind::Str(_)
        | ExprKind::Nil
        | ExprKind::Var(_) => false,
        ExprKind::SelfRef | ExprKind::Call(..) => true,
        ExprKind::Attr(on, name) => {
            if is_self(on) {
                !has_field(fields, name.name)
            } else {
                acts(classes, fields, on)
            }
        }
        ExprKind::Apply(name, args) => {
            has_class(classes, *name) || any_acts(classes, fields, args)
        }
        ExprKind::List(items) | ExprKind::And(items) | ExprKind::Or(items) => {
            any_acts(classes, fields, items)
        }
        ExprKind::Neg(a) | ExprKind::Pos(a) | ExprKind::Not(a) | ExprKind::IsNone(a, _) => {
            acts(classes, fields, a)
        }
        ExprKind::Chain(first, links) => {
            acts(classes, fields, first) || any_link_acts(classes, fields, links)
        }
        ExprKind::Index(a, b) | ExprKind::Compare(_, _, a, b) => {
            acts(classes, fields, a) || acts(classes, fields, b)
        }
        ExprKind::Cond { test, yes, no } => {
            acts(classes, fields, test) || acts(classes, fields, yes) || acts(classes, fields, no)
        }
    }
}

#[cycle(acts)]
#[tactic(auto, using(crate::proofs::ExprRules::any_rules))]
fn any_acts(classes: &[Class], fields: &[Name], exprs: &Exprs) -> bool
    ensures { result ≡ spec.any_acts (map plain_class classes.now) (numbers_of fields.now) (exprs_of (plain_exprs exprs.now)) }
{
    for expr in exprs.as_slice() {
        if acts(classes, fields, expr) {
            return true;
        }
    }
    false
}

#[cycle(acts)]
#[tactic(auto, using(crate::proofs::ExprRules::any_rules))]
fn any_link_acts(classes: &[Class], fields: &[Name], links: &Links) -> bool
    ensures { result ≡ spec.any_link_acts (map plain_class classes.now) (numbers_of fields.now) (links_of (plain_links links.now)) }
{
    for link in links.as_slice() {
        if acts(classes, fields, &link.right) {
            return true;
        }
    }
    false
}

pub fn option_acts(classes: &[Class], fields: &[Name], expr: &Option<Expr>) -> bool
    ensures { result ≡ spec.option_acts (map plain_class classes.now) (numbers_of fields.now) (plain_option plain_expr expr.now) }
{
    match expr {
        None => false,
        Some(expr) => acts(classes, fields, expr),
    }
}

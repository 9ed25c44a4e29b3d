//! What a class of one program keeps of a class of another: names by their texts, types, fields, parameters and methods.

ghost use Rattle.std.specs.Prelude.{◌≡◌, map};
ghost use Rattle.py_tree.specs.PlainTypes.{plain_ty};
ghost use Rattle.entity_tables.specs.Views.{plain_field, plain_sig_param, plain_sig, plain_table};
ghost use Rattle.program_upgrade.specs.SameParts as spec;

use entity_tables::{ClassTable, Field, Sig, SigParam};
use py_tree::{Name, Names, Ty, name_text};

/// Whether two names have the same text.
#[tactic(auto, unfolding(crate::specs::SameParts::same_name))]
pub(crate) fn same_name(old: &Names, new: &Names, x: Name, y: Name) -> bool
    ensures { result ≡ spec.same_name old.now new.now x.0 y.0 }
{
    name_text(old, x) == name_text(new, y)
}

/// Whether two types read alike.
#[tactic(auto, using(py_tree::proofs::Views::ty_views))]
fn same_type(old: &Names, new: &Names, s: &Ty, t: &Ty) -> bool
    ensures { result ≡ spec.same_type old.now new.now (plain_ty s.now) (plain_ty t.now) }
{
    match (s, t) {
        (Ty::Int, Ty::Int) => true,
        (Ty::Bool, Ty::Bool) => true,
        (Ty::Str, Ty::Str) => true,
        (Ty::Nil, Ty::Nil) => true,
        (Ty::List(s), Ty::List(t)) => same_type(old, new, s, t),
        (Ty::Optional(s), Ty::Optional(t)) => same_type(old, new, s, t),
        (Ty::Entity(x), Ty::Entity(y)) => same_name(old, new, *x, *y),
        (Ty::Int, Ty::Bool | Ty::Str | Ty::Nil | Ty::List(_) | Ty::Optional(_) | Ty::Entity(_)) =>
            false,
        (Ty::Bool, Ty::Int | Ty::Str | Ty::Nil | Ty::List(_) | Ty::Optional(_) | Ty::Entity(_)) =>
            false,
        (Ty::Str, Ty::Int | Ty::Bool | Ty::Nil | Ty::List(_) | Ty::Optional(_) | Ty::Entity(_)) =>
            false,
        (Ty::Nil, Ty::Int | Ty::Bool | Ty::Str | Ty::List(_) | Ty::Optional(_) | Ty::Entity(_)) =>
            false,
        (Ty::List(_), Ty::Int | Ty::Bool | Ty::Str | Ty::Nil | Ty::Optional(_) | Ty::Entity(_)) =>
            false,
        (Ty::Optional(_), Ty::Int | Ty::Bool | Ty::Str | Ty::Nil | Ty::List(_) | Ty::Entity(_)) =>
            false,
        (Ty::Entity(_), Ty::Int | Ty::Bool | Ty::Str | Ty::Nil | Ty::List(_) | Ty::Optional(_)) =>
            false,
    }
}

fn same_field(old: &Names, new: &Names, f: &Field, g: &Field) -> bool
    ensures { result ≡ spec.same_field old.now new.now (plain_field f.now) (plain_field g.now) }
{
    same_name(old, new, f.name, g.name) && same_type(old, new, &f.ty, &g.ty)
}

/// Whether the later fields begin with the earlier ones.
fn fields_begin(old: &Names, new: &Names, earlier: &[Field], later: &[Field]) -> bool
    ensures { result ≡ spec.begins (spec.same_field old.now new.now) (map plain_field earlier.now) (map plain_field later.now) }
{
    if earlier.len() > later.len() {
        return false;
    }
    for (i, field) in earlier.iter().enumerate() {
        if !same_field(old, new, field, &later[i]) {
            return false;
        }
    }
    true
}

fn same_param(old: &Names, new: &Names, p: &SigParam, q: &SigParam) -> bool
    ensures { result ≡ spec.same_param old.now new.now (plain_sig_param p.now) (plain_sig_param q.now) }
{
    same_type(old, new, &p.ty, &q.ty)
}

/// Whether parameters have the same types, one by one, as far as there are earlier ones.
fn params_begin(old: &Names, new: &Names, earlier: &[SigParam], later: &[SigParam]) -> bool
    ensures { result ≡ spec.begins (spec.same_param old.now new.now) (map plain_sig_param earlier.now) (map plain_sig_param later.now) }
{
    if earlier.len() > later.len() {
        return false;
    }
    for (i, param) in earlier.iter().enumerate() {
        if !same_param(old, new, param, &later[i]) {
            return false;
        }
    }
    true
}

/// Whether there are as many parameters, of the same types.
fn same_params(old: &Names, new: &Names, earlier: &[SigParam], later: &[SigParam]) -> bool
    ensures { result ≡ spec.same_params old.now new.now (map plain_sig_param earlier.now) (map plain_sig_param later.now) }
{
    earlier.len() == later.len() && params_begin(old, new, earlier, later)
}

fn same_method(old: &Names, new: &Names, m: &Sig, n: &Sig) -> bool
    ensures { result ≡ spec.same_method old.now new.now (plain_sig m.now) (plain_sig n.now) }
{
    same_name(old, new, m.name, n.name)
        && same_params(old, new, m.params.as_slice(), n.params.as_slice())
        && same_type(old, new, &m.result, &n.result)
}

/// Whether the later methods begin with the earlier ones.
fn methods_begin(old: &Names, new: &Names, earlier: &[Sig], later: &[Sig]) -> bool
    ensures { result ≡ spec.begins (spec.same_method old.now new.now) (map plain_sig earlier.now) (map plain_sig later.now) }
{
    if earlier.len() > later.len() {
        return false;
    }
    for (i, method) in earlier.iter().enumerate() {
        if !same_method(old, new, method, &later[i]) {
            return false;
        }
    }
    true
}

pub(crate) fn keeps_fields(old: &Names, new: &Names, t: &ClassTable, u: &ClassTable) -> bool
    ensures { result ≡ spec.keeps_fields old.now new.now (plain_table t.now) (plain_table u.now) }
{
    fields_begin(old, new, t.fields.as_slice(), u.fields.as_slice()) && t.key_field == u.key_field
}

pub(crate) fn keeps_init(old: &Names, new: &Names, t: &ClassTable, u: &ClassTable) -> bool
    ensures { result ≡ spec.keeps_init old.now new.now (plain_table t.now) (plain_table u.now) }
{
    same_params(old, new, t.init.as_slice(), u.init.as_slice()) && t.key_param == u.key_param
}

pub(crate) fn keeps_methods(old: &Names, new: &Names, t: &ClassTable, u: &ClassTable) -> bool
    ensures { result ≡ spec.keeps_methods old.now new.now (plain_table t.now) (plain_table u.now) }
{
    methods_begin(old, new, t.methods.as_slice(), u.methods.as_slice())
}

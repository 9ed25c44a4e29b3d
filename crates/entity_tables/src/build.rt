//! Tables and their parts, from a program's trees.

ghost use Rattle.std.specs.Prelude.{◌≡◌, [], ◌∷◌, ◌++◌, map, IfOk, OnOk};
ghost use Rattle.py_tree.specs.PlainTypes.{plain_ty, plain_written, type_of as the_type_of};
ghost use Rattle.py_tree.specs.PlainStatements.{plain_option, plain_stmt, plain_stmts};
ghost use Rattle.py_tree.specs.PlainProgram.{plain_param, plain_method};
ghost use Rattle.py_tree.specs.ClassRules as spec;
ghost use Rattle.entity_tables.specs.Views.{plain_field, plain_sig_param, plain_sig};

use crate::table::{Field, Fields, Sig, SigParam, SigParams, Sigs};
use py_tree::{
    Method, Names, Param, Stmt, Ty, WrittenKind, WrittenTy, declared_by, is_called_by_name,
};
use sf_list::Sequence;
use std::alloc::{AllocError, Global};

/// The type that is written.
#[tactic(auto, using(py_tree::proofs::Views::written_views, py_tree::proofs::Views::ty_views))]
pub fn type_of(alloc: Global, ty: &WrittenTy) -> Result<Ty, AllocError>
    ensures { IfOk result (λ made. plain_ty made ≡ the_type_of (plain_written ty.now)) }
{
    match &ty.kind {
        WrittenKind::Int => Ok(Ty::Int),
        WrittenKind::Bool => Ok(Ty::Bool),
        WrittenKind::Str => Ok(Ty::Str),
        WrittenKind::Nil => Ok(Ty::Nil),
        WrittenKind::List(element) => Ok(Ty::List(Box::new(alloc, type_of(alloc, element)?)?)),
        WrittenKind::Optional(inner) => Ok(Ty::Optional(Box::new(alloc, type_of(alloc, inner)?)?)),
        WrittenKind::Entity(class) => Ok(Ty::Entity(*class)),
    }
}

/// The type that is written, or None's where none is.
#[tactic(auto, using(py_tree::proofs::Views::ty_views))]
fn written_or_none(alloc: Global, ty: &Option<WrittenTy>) -> Result<Ty, AllocError>
    ensures { IfOk result (λ made. plain_ty made ≡ spec.written_or_none (plain_option plain_written ty.now)) }
{
    match ty {
        None => Ok(Ty::Nil),
        Some(ty) => type_of(alloc, ty),
    }
}

fn sig_param(alloc: Global, param: &Param) -> Result<SigParam, AllocError>
    ensures { IfOk result (λ made. plain_sig_param made ≡ spec.sig_param (plain_param param.now)) }
{
    let ty = written_or_none(alloc, &param.ty)?;
    Ok(SigParam {
        name: param.name,
        ty,
    })
}

/// Parameters with their types.
#[tactic(auto, using(crate::proofs::BuildLaws::walk_laws))]
pub fn sig_params(alloc: Global, params: &[Param]) -> Result<SigParams, AllocError>
    ensures { IfOk result (λ made. map plain_sig_param made ≡ spec.sig_params (map plain_param params.now)) }
{
    let mut made = Sequence::new(alloc);
    for param in params {
        made.push(alloc, sig_param(alloc, param)?)?;
    }
    Ok(made)
}

fn sig_of(alloc: Global, method: &Method) -> Result<Sig, AllocError>
    ensures { IfOk result (λ made. plain_sig made ≡ spec.sig_of (plain_method method.now)) }
{
    let params = sig_params(alloc, method.params.as_slice())?;
    let result = written_or_none(alloc, &method.result)?;
    Ok(Sig {
        name: method.name,
        params,
        result,
    })
}

/// Adds a member, where it is called by name.
#[tactic(auto, unfolding(py_tree::specs::ClassRules::methods_of))]
fn add_sig(alloc: Global, sigs: &mut Sigs, names: &Names, member: &Method) -> Result<(), AllocError>
    ensures { OnOk result (map plain_sig sigs.new ≡ map plain_sig sigs.old ++ map spec.sig_of (spec.methods_of names.now (plain_method member.now ∷ []))) }
{
    if is_called_by_name(names, member.name) {
        return sigs.push(alloc, sig_of(alloc, member)?);
    }
    Ok(())
}

/// The methods that are called by name.
#[tactic(auto, using(crate::proofs::BuildLaws::walk_laws))]
pub fn sigs_of(alloc: Global, names: &Names, members: &[Method]) -> Result<Sigs, AllocError>
    ensures { IfOk result (λ made. map plain_sig made ≡ map spec.sig_of (spec.methods_of names.now (map plain_method members.now))) }
{
    let mut made = Sequence::new(alloc);
    for member in members {
        add_sig(alloc, &mut made, names, member)?;
    }
    Ok(made)
}

/// Adds the field that a statement declares, where it declares one.
#[tactic(auto, unfolding(py_tree::specs::ClassRules::fields_of))]
fn add_field(alloc: Global, fields: &mut Fields, stmt: &Stmt) -> Result<(), AllocError>
    ensures { OnOk result (map plain_field fields.new ≡ map plain_field fields.old ++ spec.fields_of (plain_stmt stmt.now ∷ [])) }
{
    match declared_by(stmt) {
        None => Ok(()),
        Some(found) => {
            let ty = type_of(alloc, found.ty)?;
            let name = found.field.name;
            fields.push(alloc, Field { name, ty })
        }
    }
}

/// The fields that statements declare.
#[tactic(auto, using(crate::proofs::BuildLaws::walk_laws))]
pub fn fields_of(alloc: Global, body: &[Stmt]) -> Result<Fields, AllocError>
    ensures { IfOk result (λ made. map plain_field made ≡ spec.fields_of (plain_stmts body.now)) }
{
    let mut made = Sequence::new(alloc);
    for stmt in body {
        add_field(alloc, &mut made, stmt)?;
    }
    Ok(made)
}

//! From the text of a program to a point of a method: its tree, its tables and what is known there.

use entity_tables::{ClassTable, SigParam, Tables, tables};
use entity_types::{FlowEnv, Local, Locals};
use py_parser::Parsed;
use py_tree::{Names, name_text};
use sf_list::{Sequence, TryClone};
use std::alloc::{AllocError, Global};
use std::test::Fail;
use test_support::Setting;
use text_trees::tree_in;

/// Where the body of the last method of a program's first class begins.
#[derive(Drop)]
pub struct Point {
    pub tree: Parsed,
    pub tables: Tables,
    pub env: FlowEnv,
}

/// The tables of a tree that breaks no rule on classes.
fn tables_of(alloc: Global, tree: &Parsed) -> Result<Tables, Fail> {
    match tables(alloc, &tree.program, &tree.names) {
        Ok(tables) => Ok(tables),
        Err(_) => Err(Fail::from("the text breaks a rule on classes")),
    }
}

/// A parameter as a local. One named `late` isn't surely assigned, and one named `sure` is surely not
/// None.
fn local(alloc: Global, names: &Names, param: &SigParam) -> Result<Local, AllocError> {
    let text = name_text(names, param.name);
    Ok(Local {
        name: param.name,
        ty: param.ty.try_clone(alloc)?,
        assigned: text != "late",
        not_none: text == "sure",
    })
}

/// The parameters of the last method of a class as locals.
fn locals_of(alloc: Global, names: &Names, class: &ClassTable) -> Result<Locals, AllocError> {
    let mut locals = Sequence::new(alloc);
    if let Some(sig) = class.methods.as_slice().last() {
        for param in sig.params.as_slice() {
            locals.push(alloc, local(alloc, names, param)?)?;
        }
    }
    Ok(locals)
}

/// What is known where the last method of the first class begins.
fn env_of(alloc: Global, names: &Names, tables: &Tables) -> Result<FlowEnv, Fail> {
    let class = tables.get(0).ok_or("no class")?;
    Ok(FlowEnv {
        class: 0,
        method: Some(0),
        locals: locals_of(alloc, names, class)?,
    })
}

/// The tables of a tree, and what is known where its last method begins.
fn known_of(alloc: Global, tree: &Parsed) -> Result<(Tables, FlowEnv), Fail> {
    let tables = tables_of(alloc, tree)?;
    match env_of(alloc, &tree.names, &tables) {
        Ok(env) => Ok((tables, env)),
        Err(fail) => {
            drop(tables);
            Err(fail)
        }
    }
}

/// The point of a row in its setting.
pub fn point_of(alloc: Global, setting: Setting, lines: &str) -> Result<Point, Fail> {
    let tree = tree_in(alloc, setting, lines)?;
    match known_of(alloc, &tree) {
        Ok((tables, env)) => Ok(Point { tree, tables, env }),
        Err(fail) => {
            drop(tree);
            Err(fail)
        }
    }
}

//! Types, tables, what is known, and broken rules, as short texts.

use entity_tables::{ClassTable, Fields, RuleError, SigParams, Sigs};
use entity_types::{FlowEnv, Local};
use py_tree::{Name, Names, Ty, name_text};
use std::alloc::{AllocError, Global};

/// A broken rule and its place.
pub fn refused(alloc: Global, error: RuleError) -> Result<String, AllocError> {
    match error {
        RuleError::Fault(fault) => format!(in alloc;
            "{:?} {}:{}",
            fault.rule, fault.place.line, fault.place.col
        ),
        RuleError::NoMemory => Err(AllocError),
    }
}

/// A type as a program writes it.
pub fn type_told(alloc: Global, names: &Names, ty: &Ty) -> Result<String, AllocError> {
    match ty {
        Ty::Int => String::from_str(alloc, "int"),
        Ty::Bool => String::from_str(alloc, "bool"),
        Ty::Str => String::from_str(alloc, "str"),
        Ty::Nil => String::from_str(alloc, "None"),
        Ty::List(element) => {
            let element = type_told(alloc, names, element)?;
            format!(in alloc; "List[{element}]")
        }
        Ty::Optional(inner) => {
            let inner = type_told(alloc, names, inner)?;
            format!(in alloc; "Optional[{inner}]")
        }
        Ty::Entity(class) => String::from_str(alloc, name_text(names, *class)),
    }
}

/// Puts a name and its type behind a list of such.
fn add_typed(
    alloc: Global,
    told: &mut String,
    names: &Names,
    name: Name,
    ty: &Ty,
) -> Result<(), AllocError> {
    if !told.is_empty() {
        told.push_str(", ")?;
    }
    told.push_str(name_text(names, name))?;
    told.push_str(": ")?;
    let ty = type_told(alloc, names, ty)?;
    told.push_str(ty.as_str())
}

/// Locals from the one of this number on, with their types.
pub fn locals_told(
    alloc: Global,
    names: &Names,
    locals: &[Local],
    first: usize,
) -> Result<String, AllocError> {
    let mut told = format!(in alloc; "{} locals", locals.len())?;
    for (number, local) in locals.iter().enumerate() {
        if number >= first {
            add_typed(alloc, &mut told, names, local.name, &local.ty)?;
        }
    }
    Ok(told)
}

fn params_told(alloc: Global, names: &Names, params: &SigParams) -> Result<String, AllocError> {
    let mut told = String::new(alloc);
    for param in params.as_slice() {
        add_typed(alloc, &mut told, names, param.name, &param.ty)?;
    }
    Ok(told)
}

fn fields_told(alloc: Global, names: &Names, fields: &Fields) -> Result<String, AllocError> {
    let mut told = String::new(alloc);
    for field in fields.as_slice() {
        add_typed(alloc, &mut told, names, field.name, &field.ty)?;
    }
    Ok(told)
}

fn methods_told(alloc: Global, names: &Names, methods: &Sigs) -> Result<String, AllocError> {
    let mut told = String::new(alloc);
    for sig in methods.as_slice() {
        let name = name_text(names, sig.name);
        let params = params_told(alloc, names, &sig.params)?;
        let result = type_told(alloc, names, &sig.result)?;
        let method = format!(in alloc; " {name}({params}) -> {result}")?;
        told.push_str(method.as_str())?;
    }
    Ok(told)
}

/// The table of a class: what `__init__` takes, the numbers of the key's field and parameter, the fields
/// and the methods.
pub fn table_told(alloc: Global, names: &Names, table: &ClassTable) -> Result<String, AllocError> {
    let name = name_text(names, table.name);
    let (field, param) = (table.key_field, table.key_param);
    let init = params_told(alloc, names, &table.init)?;
    let fields = fields_told(alloc, names, &table.fields)?;
    let methods = methods_told(alloc, names, &table.methods)?;
    format!(in alloc; "{name}({init}) key {field} of {param} has {fields} does{methods}")
}

/// Puts a name behind a list of names.
fn add_name(told: &mut String, names: &Names, name: Name) -> Result<(), AllocError> {
    if !told.is_empty() {
        told.push(',')?;
    }
    told.push_str(name_text(names, name))
}

/// The names that are surely not None.
pub fn sure_names(alloc: Global, names: &Names, env: &FlowEnv) -> Result<String, AllocError> {
    let mut told = String::new(alloc);
    for local in env.locals.as_slice() {
        if local.not_none {
            add_name(&mut told, names, local.name)?;
        }
    }
    Ok(told)
}

/// The names that are surely assigned.
pub fn assigned_names(alloc: Global, names: &Names, env: &FlowEnv) -> Result<String, AllocError> {
    let mut told = String::new(alloc);
    for local in env.locals.as_slice() {
        if local.assigned {
            add_name(&mut told, names, local.name)?;
        }
    }
    Ok(told)
}

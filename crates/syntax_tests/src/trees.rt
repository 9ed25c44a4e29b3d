//! The parts of trees: names by number, and copies.

use py_tree::nodes::{attribute, int_of, return_of, self_of};
use py_tree::{ExprKind, Name, Names, Place, PlacedName, Stmt, StmtKind, Ty};
use sf_list::TryClone;
use std::alloc::{AllocError, Global};
use std::test::Fail;
use test_support::hold_text;

const HERE: Place = Place { line: 3, col: 5 };

/// The numbers that names are given, how many there are, and what is found by a text.
fn names_told(alloc: Global) -> Result<String, AllocError> {
    let mut names = Names::new(alloc);
    let first = names.number(alloc, "self")?;
    let second = names.number(alloc, "int")?;
    let again = names.number(alloc, "self")?;
    let (int, bool) = (names.find("int"), names.find("bool"));
    format!(in alloc;
        "{}, {}, {}, {} names, {int:?}, {bool:?}",
        first.0,
        second.0,
        again.0,
        names.count()
    )
}

#[test]
fn names_are_numbered_in_order(rt: HostRuntime) -> Result<(), Fail> {
    let wanted = "0, 1, 0, 2 names, Some(Name(1)), None";
    hold_text(names_told(rt.alloc()), wanted)
}

/// Whether a type is the same as its copy, and as the type of its elements.
fn same_told(alloc: Global, list: &Ty) -> Result<String, AllocError> {
    let copy = list.try_clone(alloc)?;
    let same = list.same(&copy);
    drop(copy);
    format!(in alloc; "{same}, {}", list.same(&Ty::Entity(Name(7))))
}

#[test]
fn a_copy_is_the_same_type(rt: HostRuntime) -> Result<(), Fail> {
    let list = Ty::List(Box::new(rt.alloc(), Ty::Entity(Name(7)))?);
    let told = same_told(rt.alloc(), &list);
    drop(list);
    hold_text(told, "true, false")
}

/// The name of the attribute that a statement returns.
fn returned_name(stmt: &Stmt) -> Option<PlacedName> {
    let StmtKind::Return(Some(value)) = &stmt.kind else {
        return None;
    };
    match &value.kind {
        ExprKind::Attr(_, name) => Some(*name),
        _ => None,
    }
}

/// Whether a copy of a statement that returns an attribute of this name has the name.
fn copy_keeps_name(alloc: Global, name: PlacedName) -> Result<bool, AllocError> {
    let returned = return_of(HERE, Some(attribute(alloc, HERE, self_of(HERE), name)?));
    let copy = returned.try_clone(alloc);
    drop(returned);
    let copy = copy?;
    let is_kept = returned_name(&copy) == Some(name);
    drop(copy);
    Ok(is_kept)
}

/// The number that a copy of a number has.
fn copied_number(alloc: Global, number: i128) -> Result<Option<i128>, AllocError> {
    let expr = int_of(HERE, number);
    let copy = expr.try_clone(alloc);
    drop(expr);
    let copy = copy?;
    let number = match &copy.kind {
        ExprKind::Int(number) => Some(*number),
        _ => None,
    };
    drop(copy);
    Ok(number)
}

#[test]
fn a_copied_statement_keeps_its_parts(rt: HostRuntime) -> Result<(), Fail> {
    let name = PlacedName {
        name: Name(18),
        place: HERE,
    };
    let is_kept = copy_keeps_name(rt.alloc(), name)?;
    let number = copied_number(rt.alloc(), 4)?;
    assert_eq!(rt; (is_kept, number), (true, Some(4)));
    Ok(())
}

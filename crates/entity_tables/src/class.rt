//! Classes: their members one by one, and then each as a whole.

ghost use Rattle.std.specs.Prelude.{◌≡◌, None, map};
ghost use Rattle.py_tree.specs.PlainProgram.{plain_class, plain_method};
ghost use Rattle.py_tree.specs.ClassRules as spec;
ghost use Rattle.entity_tables.specs.declared.fault.RuleError.TheVariants.{Fault as Broken};
ghost use Rattle.entity_tables.specs.Answers.{Finds, Makes, IsSmall, class_faults};
ghost use Rattle.entity_tables.specs.Views.{plain_table, plain_tables};

use crate::build::{fields_of, sig_params, sigs_of};
use crate::fault::RuleError;
use crate::init::check_init_body;
use crate::members::{check_member_name, check_params, check_result};
use crate::table::{ClassTable, Tables};
use py_tree::{Class, Method, Names, Place, Rule, RuleFault, find_init, find_key, is_init, key_of};
use sf_list::Sequence;
use std::alloc::Global;

/// The rules of a member, behind the other members: its name, its parameters, its result type and,
/// of `__init__`, its body.
#[tactic(auto, unfolding(py_tree::specs::ClassRules::member_fault))]
fn check_member(
    alloc: Global,
    names: &Names,
    classes: &[Class],
    members: &[Method],
    before: &[Method],
    member: &Method,
) -> Result<(), RuleError>
    ensures { Finds (spec.member_fault names.now (map plain_class classes.now) (map plain_method members.now) (map plain_method before.now)
        (plain_method member.now)) result }
{
    check_member_name(names, before, member)?;
    check_params(classes, member.params.as_slice())?;
    check_result(names, classes, member)?;
    if is_init(names, member.name) {
        return check_init_body(alloc, names, classes, members, member.body.as_slice());
    }
    Ok(())
}

/// The rules of all members of a class.
#[tactic(auto, using(crate::proofs::Lists::first_laws))]
fn check_members(
    alloc: Global,
    names: &Names,
    classes: &[Class],
    members: &[Method],
) -> Result<(), RuleError>
    ensures { Finds (spec.first_in (spec.member_fault names.now (map plain_class classes.now) (map plain_method members.now)) (map plain_method members.now))
        result }
{
    for i in 0..members.len() {
        check_member(alloc, names, classes, members, &members[..i], &members[i])?;
    }
    Ok(())
}

fn fault(rule: Rule, place: Place) -> RuleError
    ensures { result ≡ Broken (record { rule = rule; place = place }) }
{
    RuleError::Fault(RuleFault { rule, place })
}

/// The table of a class whose members keep their rules, or the rule that it breaks as a whole.
#[tactic(auto, using(crate::proofs::WholeLaws::whole_laws))]
fn class_table(alloc: Global, names: &Names, class: &Class) -> Result<ClassTable, RuleError>
    requires { IsSmall names.now (map plain_method class.now.members) }
    ensures { Makes plain_table (spec.whole_fault names.now (plain_class class.now)) (spec.table_of names.now (plain_class class.now)) result }
{
    let members = class.members.as_slice();
    let Some(init) = find_init(names, members) else {
        return Err(fault(Rule::InitForm, class.place));
    };
    let Some(method) = find_key(names, members) else {
        return Err(fault(Rule::KeyForm, class.place));
    };
    let Some(key) = key_of(names, members) else {
        return Err(fault(Rule::KeyForm, method.place));
    };
    let fields = fields_of(alloc, init.body.as_slice())?;
    let methods = sigs_of(alloc, names, members)?;
    let init = sig_params(alloc, init.params.as_slice())?;
    Ok(ClassTable {
        name: class.name,
        key_field: key.field as u32,
        key_param: key.param as u32,
        fields,
        methods,
        init,
    })
}

/// The table of a class, or its first broken rule.
#[tactic(auto, using(crate::proofs::SmallLaws::small_laws), unfolding(py_tree::specs::ClassRules::class_fault))]
fn checked_table(
    alloc: Global,
    names: &Names,
    classes: &[Class],
    class: &Class,
) -> Result<ClassTable, RuleError>
    ensures { Makes plain_table (spec.class_fault names.now (map plain_class classes.now) (plain_class class.now))
        (spec.table_of names.now (plain_class class.now)) result }
{
    check_members(alloc, names, classes, class.members.as_slice())?;
    class_table(alloc, names, class)
}

/// The tables of all classes, or the first rule that one breaks, its name aside.
#[tactic(auto, using(crate::proofs::TableLaws::table_laws))]
pub fn class_tables(alloc: Global, names: &Names, classes: &[Class]) -> Result<Tables, RuleError>
    ensures { Makes plain_tables (spec.first_in (class_faults names.now (map plain_class classes.now)) (map plain_class classes.now))
        (spec.tables_of names.now (map plain_class classes.now)) result }
{
    let mut tables = Sequence::new(alloc);
    for class in classes {
        let table = checked_table(alloc, names, classes, class)?;
        tables.push(alloc, table)?;
    }
    Ok(tables)
}

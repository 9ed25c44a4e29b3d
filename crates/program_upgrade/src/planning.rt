//! Which rule of an upgrade is broken first, or the values that the upgrade adds.

ghost use Rattle.std.specs.Prelude.{◌≡◌, ◌≤◌, length, slice_get, option_map, IfOk};
ghost use Rattle.entity_tables.specs.Views.{plain_table, plain_tables};
ghost use Rattle.program_meaning.specs.Sources.{source_of};
ghost use Rattle.program_upgrade.specs.Answers.{Plans, PlansClass, PlansClasses, beside_class};
ghost use Rattle.program_upgrade.specs.UpgradeRules.{tables_in, first_of, table_rules};

use crate::defaults::defaults_behind;
use crate::mapping::Mapping;
use crate::parts::{keeps_fields, keeps_init, keeps_methods, same_name};
use crate::rule::{UpgradeError, UpgradeFault, UpgradeRule};
use entity_tables::{ClassTable, RuleError, Tables, tables};
use py_tree::{Checked, Names};
use sf_list::Sequence;
use sf_value::Values;
use std::alloc::{AllocError, Global};

/// The tables of an accepted program.
#[tactic(auto, using(crate::proofs::RuleLaws::few_tables))]
fn tables_of(alloc: Global, program: &Checked) -> Result<Tables, AllocError>
    ensures tables { IfOk result (λ made. plain_tables made ≡ tables_in (source_of program.now)) }
    ensures few { IfOk result (λ made. length made ≤ 256) }
{
    match tables(alloc, program.program(), program.names()) {
        Ok(made) => Ok(made),
        Err(RuleError::NoMemory) => Err(AllocError),
        // an accepted program breaks no rule
        Err(RuleError::Fault(_)) => unreachable!(),
    }
}

/// The first rule that a class breaks by its table, beside the later one.
fn changed(old: &Names, new: &Names, t: &ClassTable, u: &ClassTable) -> Option<UpgradeRule>
    ensures { result ≡ first_of (table_rules old.now new.now (plain_table t.now) (plain_table u.now)) }
{
    if !same_name(old, new, t.name, u.name) {
        Some(UpgradeRule::ClassGone)
    } else if !keeps_fields(old, new, t, u) {
        Some(UpgradeRule::FieldChanged)
    } else if !keeps_init(old, new, t, u) {
        Some(UpgradeRule::InitChanged)
    } else if !keeps_methods(old, new, t, u) {
        Some(UpgradeRule::MethodChanged)
    } else {
        None
    }
}

/// The values of the fields that the later program adds to a class, or the first rule that the class breaks.
#[tactic(auto, using(crate::proofs::RuleLaws::rule_laws))]
fn plan_class(
    alloc: Global,
    earlier: &Checked,
    later: &Checked,
    class: u32,
    table: &ClassTable,
    beside: Option<&ClassTable>,
) -> Result<Values, UpgradeError>
    requires { option_map (λ t. plain_table t.now) beside ≡ beside_class (source_of later.now) class }
    ensures { PlansClass (source_of earlier.now) (source_of later.now) class (plain_table table.now) result }
{
    let Some(beside) = beside else {
        return Err(UpgradeError::Fault(UpgradeFault {
            rule: UpgradeRule::ClassGone,
            class,
        }));
    };
    if let Some(rule) = changed(earlier.names(), later.names(), table, beside) {
        return Err(UpgradeError::Fault(UpgradeFault { rule, class }));
    }
    match defaults_behind(alloc, later, class, table.fields.len())? {
        Some(values) => Ok(values),
        None => Err(UpgradeError::Fault(UpgradeFault {
            rule: UpgradeRule::NoDefault,
            class,
        })),
    }
}

/// The table of the class of this number.
fn table_at(tables: &[ClassTable], class: u32) -> Option<&ClassTable>
    ensures { option_map (λ t. plain_table t.now) result ≡ slice_get (plain_tables tables.now) class }
{
    tables.get(class as usize)
}

/// The values that the later program adds, class after class, or the first rule that one breaks.
#[tactic(auto, using(crate::proofs::RuleLaws::plan_laws))]
fn plan_classes(
    alloc: Global,
    earlier: &Checked,
    later: &Checked,
    old: &[ClassTable],
    new: &[ClassTable],
) -> Result<Mapping, UpgradeError>
    requires few { length old.now ≤ 256 }
    requires later { plain_tables new.now ≡ tables_in (source_of later.now) }
    ensures { PlansClasses (source_of earlier.now) (source_of later.now) (plain_tables old.now) result }
{
    let mut values = Sequence::new(alloc);
    let mut count: u32 = 0;
    for (i, table) in old.iter().enumerate() {
        let class = i as u32;
        let added = plan_class(alloc, earlier, later, class, table, table_at(new, class))?;
        count += added.len() as u32;
        values.push(alloc, added)?;
    }
    Ok(Mapping { values, count })
}

/// How a later program takes over what an earlier one kept, or the first rule that forbids it.
#[tactic(auto, unfolding(crate::specs::UpgradeRules::upgrade_fault, crate::specs::UpgradeRules::added_values))]
pub fn plan_upgrade(
    alloc: Global,
    earlier: &Checked,
    later: &Checked,
) -> Result<Mapping, UpgradeError>
    ensures { Plans (source_of earlier.now) (source_of later.now) result }
{
    let old = tables_of(alloc, earlier)?;
    let new = tables_of(alloc, later)?;
    plan_classes(alloc, earlier, later, old.as_slice(), new.as_slice())
}

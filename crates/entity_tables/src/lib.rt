//! Class tables: what the classes of a program define and declare, or the first class rule that it breaks.
#![tactic(auto)]

ghost use Rattle.std.specs.Prelude.{◌≡◌};
ghost use Rattle.py_tree.specs.PlainProgram.{plain_program};
ghost use Rattle.py_tree.specs.ClassRules.{program_fault, tables_of};
ghost use Rattle.entity_tables.specs.Answers.{Makes};
ghost use Rattle.entity_tables.specs.Views.{plain_tables};

mod acts;
mod build;
mod class;
mod classes;
mod copy;
mod fault;
mod init;
mod members;
pub mod names;
mod table;
pub mod written;

pub use build::type_of;
pub use fault::{RuleError, is_full};
pub use py_tree::{Rule, RuleFault};
use py_tree::{Names, Program};
use std::alloc::Global;
pub use table::{ClassTable, Field, Fields, Sig, SigParam, SigParams, Sigs, Tables};

/// The tables of a program whose classes break no rule, or the first rule that they break. The
/// types of expressions, and statements outside `__init__`, aren't looked at.
#[tactic(auto, unfolding(py_tree::specs::ClassRules::program_fault))]
pub fn tables(alloc: Global, program: &Program, names: &Names) -> Result<Tables, RuleError>
    ensures tables { Makes plain_tables (program_fault names.now (plain_program program.now)) (tables_of names.now (plain_program program.now)) result }
{
    let classes = program.classes.as_slice();
    classes::check_class_names(classes)?;
    class::class_tables(alloc, names, classes)
}

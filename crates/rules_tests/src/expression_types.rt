//! Each rule on types kept and broken, pairs of which the earlier is told, and what tests show.

use crate::points::{Point, point_of};
use crate::telling::{refused, sure_names, type_told};
use entity_tables::type_of;
use entity_types::{FlowEnv, Tables, condition, narrow, narrow_here, type_expr};
use py_parser::Parsed;
use py_tree::{Expr, Stmt, StmtKind, Ty};
use std::alloc::Global;
use std::test::Fail;
use test_support::{Setting, hold_table};
use text_trees::written;

/// A row has the lines of a method f, from line 10 on. Of its parameters `sure` stands for a local that
/// is surely not None, and `late` for one that isn't surely assigned.
const METHOD: Setting = Setting {
    head: "@entity
class Item:
    def __init__(self, text: str):
        self.key: str = text
        self.cost: int = 0
    def __key__(self): return self.key
    def add(self, n: int, maybe: Optional[int]) -> int: return n
    def peer(self) -> Optional['Item']: return self
    def f(self, n: int, maybe: Optional[int], sure: Optional[int], text: str, flag: bool, ints: List[int], item: 'Item', other: Optional['Item'], late: int) -> None:
",
    indent: "        ",
    tail: "",
};

/// The type of an expression, where this type is wanted, or the rule that it breaks.
fn typed(alloc: Global, point: &Point, wanted: Option<&Ty>, expr: &Expr) -> Result<String, Fail> {
    let names = &point.tree.names;
    match type_expr(alloc, &point.tables, names, &point.env, wanted, expr) {
        Ok(ty) => {
            let told = type_told(alloc, names, &ty);
            drop(ty);
            Ok(told?)
        }
        Err(error) => Ok(refused(alloc, error)?),
    }
}

/// The same of an expression that is a line, or of one that a line gives a name of a type.
fn typed_line(alloc: Global, point: &Point, line: &Stmt) -> Result<String, Fail> {
    match &line.kind {
        StmtKind::Expr(expr) => typed(alloc, point, None, expr),
        StmtKind::Assign {
            ty: Some(ty),
            value,
            ..
        } => {
            let wanted = type_of(alloc, ty)?;
            let told = typed(alloc, point, Some(&wanted), value);
            drop(wanted);
            told
        }
        _ => Err(Fail::from("no expression")),
    }
}

/// The same of the last line of a row.
fn told(alloc: Global, text: &str) -> Result<String, Fail> {
    let point = point_of(alloc, METHOD, text)?;
    let told = match written(&point.tree).last() {
        Some(line) => typed_line(alloc, &point, line),
        None => Err(Fail::from("no line")),
    };
    drop(point);
    told
}

const NAMES: &str = "
    a number                | 5        | int
    None                    | None     | None
    a text                  | pass↵'a' | str
    self                    | self     | Item
    a local                 | n        | int
    what may be None        | maybe    | Optional[int]
    what is surely not None | sure     | int
    no local                | nope     | UnknownName 10:9
    a function              | len      | UnknownName 10:9
    not surely assigned     | late     | Unassigned 10:9
";

#[test]
fn a_name_is_a_local_that_is_assigned(rt: HostRuntime) -> Result<(), Fail> {
    hold_table(rt.alloc(), NAMES, 10, told)
}

const FIELDS: &str = "
    an own field      | self.cost | int
    no field          | self.nope | UnknownField 10:14
    of another entity | item.cost | RemoteField 10:14
    of no local       | nope.cost | RemoteField 10:14
";

#[test]
fn a_field_is_one_of_self(rt: HostRuntime) -> Result<(), Fail> {
    hold_table(rt.alloc(), FIELDS, 4, told)
}

const CALLS: &str = "
    of an entity        | item.peer()    | Optional[Item]
    of what may be None | other.peer()   | NoneUse 10:9
    of a number         | n.peer()       | Operand 10:9
    of no method        | item.nope()    | UnknownMethod 10:14
    an argument too few | item.add(text) | ArgCount 10:14
";

#[test]
fn a_call_is_of_a_method_of_an_entity(rt: HostRuntime) -> Result<(), Fail> {
    hold_table(rt.alloc(), CALLS, 5, told)
}

const ARGUMENTS: &str = "
    both fit               | item.add(n, None)    | int
    the first doesn't fit  | item.add(text, late) | Mismatch 10:18
    the second doesn't fit | item.add(n, text)    | Mismatch 10:21
    the first is no value  | item.add(late, text) | Unassigned 10:18
";

#[test]
fn arguments_are_told_one_by_one(rt: HostRuntime) -> Result<(), Fail> {
    hold_table(rt.alloc(), ARGUMENTS, 4, told)
}

const CREATIONS: &str = "
    of a class   | Item(text) | Item
    of no class  | Nope(late) | UnknownName 10:9
    no argument  | Item()     | ArgCount 10:9
    another type | Item(n)    | Mismatch 10:14
";

#[test]
fn a_creation_takes_what_init_takes(rt: HostRuntime) -> Result<(), Fail> {
    hold_table(rt.alloc(), CREATIONS, 4, told)
}

const FUNCTIONS: &str = "
    the length of a text             | len(text)        | int
    the length of a list             | len(ints)        | int
    the length of a number           | len(n)           | Operand 10:13
    a number as text                 | str(n)           | str
    the least of one                 | min(n)           | ArgCount 10:9
    the greatest of what may be None | max(n, maybe)    | NoneUse 10:16
    the greatest of a text           | max(text, maybe) | Operand 10:13
";

#[test]
fn functions_ask_for_their_operands(rt: HostRuntime) -> Result<(), Fail> {
    hold_table(rt.alloc(), FUNCTIONS, 7, told)
}

const INDEXES: &str = "
    into a list           | ints[n]     | int
    into a text           | text[late]  | Operand 10:9
    into what may be None | maybe[n]    | NoneUse 10:9
    by what may be None   | ints[maybe] | Operand 10:14
";

#[test]
fn an_index_is_an_int_into_a_list(rt: HostRuntime) -> Result<(), Fail> {
    hold_table(rt.alloc(), INDEXES, 4, told)
}

const LISTS: &str = "
    empty                           | []                                 | EmptyListType 10:9
    empty for a list                | x: List[int] = []                  | List[int]
    empty for what may be a list    | x: Optional[List[int]] = []        | List[int]
    None for an element that may be | x: List[Optional[int]] = [n, None] | List[Optional[int]]
    None behind a number            | [n, None]                          | Mismatch 10:13
";

#[test]
fn a_list_has_a_type_for_its_elements(rt: HostRuntime) -> Result<(), Fail> {
    hold_table(rt.alloc(), LISTS, 5, told)
}

const OPERATORS: &str = "
    a sum                   | n + sure     | int
    texts                   | text + text  | str
    a list and an empty one | ints + []    | List[int]
    what may be None        | maybe + text | NoneUse 10:15
    texts multiplied        | text * text  | Operand 10:14
    a bool                  | True + n     | Operand 10:14
    minus what may be None  | -maybe       | NoneUse 10:10
";

#[test]
fn an_operator_has_two_sides_of_one_type(rt: HostRuntime) -> Result<(), Fail> {
    hold_table(rt.alloc(), OPERATORS, 7, told)
}

const TRUTHS: &str = "
    and shows what is not None | maybe is not None and maybe < 5 | bool
    and shows what is None     | maybe is None and maybe < 5     | NoneUse 10:33
    or shows what is not None  | maybe is None or maybe < 5      | bool
    or shows what is None      | maybe is not None or maybe < 5  | NoneUse 10:36
    shown too late             | maybe < 5 and maybe is not None | NoneUse 10:15
    a number as a truth        | flag or n                       | Operand 10:17
    not of a text              | not text                        | Operand 10:13
";

#[test]
fn operands_know_what_those_before_show(rt: HostRuntime) -> Result<(), Fail> {
    hold_table(rt.alloc(), TRUTHS, 7, told)
}

const COMPARISONS: &str = "
    equal to what may be None | n == maybe   | bool
    texts in order            | text >= text | bool
    a number and a text       | n != text    | Mismatch 10:14
    truths in order           | flag < flag  | Operand 10:14
    what may be None in order | n <= maybe   | NoneUse 10:11
    the right side first      | text < late  | Unassigned 10:16
";

#[test]
fn a_comparison_has_sides_that_compare(rt: HostRuntime) -> Result<(), Fail> {
    hold_table(rt.alloc(), COMPARISONS, 6, told)
}

const CONDITIONALS: &str = "
    the test shows            | maybe if maybe is not None else 0 | int
    a number or None          | n if flag else None               | Optional[int]
    a number or a text        | n if flag else text               | Mismatch 10:24
    the last part is no value | n if flag else late               | Unassigned 10:24
    the test comes first      | late if n else text               | Operand 10:17
";

#[test]
fn a_conditional_joins_its_parts(rt: HostRuntime) -> Result<(), Fail> {
    hold_table(rt.alloc(), CONDITIONALS, 5, told)
}

/// The test that is the row's line of this number.
fn test_at(tree: &Parsed, number: usize) -> Option<&Expr> {
    match &written(tree).get(number)?.kind {
        StmtKind::Expr(test) => Some(test),
        _ => None,
    }
}

/// The names that are surely not None where a test comes to this.
fn sure_where(alloc: Global, point: &Point, test: &Expr, truth: bool) -> Result<String, Fail> {
    let env = narrow(alloc, &point.env, test, truth)?;
    let told = sure_names(alloc, &point.tree.names, &env);
    drop(env);
    Ok(told?)
}

/// The names that are surely not None where a test holds, where it doesn't, and still.
fn narrowed(alloc: Global, point: &Point) -> Result<String, Fail> {
    let test = test_at(&point.tree, 0).ok_or("no test")?;
    let so = sure_where(alloc, point, test, true)?;
    let not_so = sure_where(alloc, point, test, false)?;
    let still = sure_names(alloc, &point.tree.names, &point.env)?;
    Ok(format!(in alloc; "{so}; {not_so}; {still}")?)
}

/// The same of the test that is a row.
fn told_of_test(alloc: Global, text: &str) -> Result<String, Fail> {
    let point = point_of(alloc, METHOD, text)?;
    let told = narrowed(alloc, &point);
    drop(point);
    told
}

const NARROWED: &str = "
    not None | not (maybe is None) | maybe,sure; sure; sure
";

#[test]
fn a_test_narrows_a_copy(rt: HostRuntime) -> Result<(), Fail> {
    hold_table(rt.alloc(), NARROWED, 1, told_of_test)
}

/// The names that are surely not None once a test holds, and once it doesn't either.
fn narrowed_here(alloc: Global, tree: &Parsed, env: &mut FlowEnv) -> Result<String, Fail> {
    let test = test_at(tree, 0).ok_or("no test")?;
    narrow_here(env, test, true);
    let so = sure_names(alloc, &tree.names, env)?;
    narrow_here(env, test, false);
    let then = sure_names(alloc, &tree.names, env)?;
    Ok(format!(in alloc; "{so}; {then}")?)
}

/// The same of the test that is a row.
fn told_here(alloc: Global, text: &str) -> Result<String, Fail> {
    let mut point = point_of(alloc, METHOD, text)?;
    let told = narrowed_here(alloc, &point.tree, &mut point.env);
    drop(point);
    told
}

const NARROWED_HERE: &str = "
    or shows where it doesn't hold | flag or maybe is None | sure; maybe,sure
";

#[test]
fn a_test_narrows_in_place(rt: HostRuntime) -> Result<(), Fail> {
    hold_table(rt.alloc(), NARROWED_HERE, 1, told_here)
}

/// Whether the last line is a condition where those before hold, or the rule that it breaks.
fn judged(
    alloc: Global,
    tree: &Parsed,
    tables: &Tables,
    env: &mut FlowEnv,
) -> Result<String, Fail> {
    let mut answered = Ok(());
    for number in 0..written(tree).len() {
        let test = test_at(tree, number).ok_or("no test")?;
        answered = condition(alloc, tables, &tree.names, env, test);
        narrow_here(env, test, true);
    }
    match answered {
        Ok(()) => Ok(String::from_str(alloc, "a condition")?),
        Err(error) => Ok(refused(alloc, error)?),
    }
}

/// The same of the lines of a row.
fn told_of_conditions(alloc: Global, text: &str) -> Result<String, Fail> {
    let mut point = point_of(alloc, METHOD, text)?;
    let told = judged(alloc, &point.tree, &point.tables, &mut point.env);
    drop(point);
    told
}

const CONDITIONS: &str = "
    what may be None     | maybe < 5                     | NoneUse 10:15
    what is shown before | not (maybe is None)↵maybe < 5 | a condition
    a number             | n                             | Operand 10:9
";

#[test]
fn a_condition_is_bool(rt: HostRuntime) -> Result<(), Fail> {
    hold_table(rt.alloc(), CONDITIONS, 3, told_of_conditions)
}

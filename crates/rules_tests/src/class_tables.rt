//! A program that keeps the rules on classes, each rule broken once, and pairs of which the earlier is told.

use crate::telling::{refused, table_told};
use entity_tables::{Tables, tables};
use py_parser::Parsed;
use py_tree::Names;
use sf_list::TryClone;
use std::alloc::{AllocError, Global};
use std::test::Fail;
use test_support::{Setting, hold_cases, hold_table};
use text_trees::tree_in;

/// A row has what stands behind the class Item, from line 8 on.
const BEHIND: Setting = Setting {
    head: "@entity
class Item:
    def __init__(self, name: str, cost: int):
        self.name: str = name
        self.cost: int = cost
    def __key__(self): return self.name
    def price(self) -> int: return self.cost
",
    indent: "",
    tail: "",
};

/// A row has members of the class Item behind `__init__` and `__key__`, from line 7 on.
const MEMBERS: Setting = Setting {
    head: "@entity
class Item:
    def __init__(self, name: str, cost: int):
        self.name: str = name
        self.cost: int = cost
    def __key__(self): return self.name
",
    indent: "    ",
    tail: "",
};

/// A row has the members of the class Item, from line 3 on.
const CLASS: Setting = Setting {
    head: "@entity
class Item:
",
    indent: "    ",
    tail: "",
};

/// A row has the statements of `__init__` behind those of two fields, from line 6 on.
const INIT: Setting = Setting {
    head: "@entity
class Item:
    def __init__(self, name: str, cost: int):
        self.name: str = name
        self.cost: int = cost
",
    indent: "        ",
    tail: "    def __key__(self): return self.name
    def price(self) -> int: return self.cost
",
};

/// A row has the members of the class Item between `__init__` and a method, from line 6 on.
const KEY: Setting = Setting {
    head: "@entity
class Item:
    def __init__(self, name: str, cost: int):
        self.name: str = name
        self.cost: int = cost
",
    indent: "    ",
    tail: "    def price(self) -> int: return self.cost
",
};

/// The tables of classes, with `;` between them.
fn tables_told(alloc: Global, names: &Names, tables: &Tables) -> Result<String, AllocError> {
    let mut told = String::new(alloc);
    for table in tables.as_slice() {
        let table = table_told(alloc, names, table)?;
        if !told.is_empty() {
            told.push(';')?;
        }
        told.push_str(table.as_str())?;
    }
    Ok(told)
}

/// The tables of a tree, as their copy tells them, or the rule on classes that it breaks.
fn told(alloc: Global, tree: &Parsed) -> Result<String, AllocError> {
    match tables(alloc, &tree.program, &tree.names) {
        Ok(tables) => {
            let copy = tables.try_clone(alloc);
            drop(tables);
            tables_told(alloc, &tree.names, &copy?)
        }
        Err(error) => refused(alloc, error),
    }
}

/// The same of a row in its setting.
fn told_in(alloc: Global, setting: Setting, text: &str) -> Result<String, Fail> {
    let tree = tree_in(alloc, setting, text)?;
    let told = told(alloc, &tree);
    drop(tree);
    Ok(told?)
}

/// Asserts that a table has so many rows, and of each its tables or the rule that it breaks.
fn hold(alloc: Global, setting: Setting, table: &str, count: usize) -> Result<(), Fail> {
    hold_table(alloc, table, count, |alloc, text| {
        told_in(alloc, setting, text)
    })
}

const ITEM: &str = "
    an item | def price(self) -> int: return self.cost | Item(name: str, cost: int) key 0 of 0 has name: str, cost: int does price() -> int
";

#[test]
fn an_item_has_its_table(rt: HostRuntime) -> Result<(), Fail> {
    hold(rt.alloc(), MEMBERS, ITEM, 1)
}

const CLASSES: &str = "
    a class twice, without its members | @entity↵class Item:↵    def f(self): pass            | DuplicateClass 9:7
    a class named as a function        | @entity↵class len:↵    def f(self): pass             | ReservedName 9:7
    a class without an __init__        | @entity↵class Cart:↵    def f(self) -> int: return 1 | InitForm 9:7
";

#[test]
fn names_of_classes_come_first(rt: HostRuntime) -> Result<(), Fail> {
    hold(rt.alloc(), BEHIND, CLASSES, 3)
}

const PARAMETERS: &str = "
    one twice, the second without a type | def price(self, amount: int, amount): pass | DuplicateMember 7:34
    two without a type                   | def price(self, amount, len): pass         | MissingAnnotation 7:21
    one named as a function              | def price(self, len, cost): pass           | ReservedName 7:21
    one named as the class               | def price(self, Item, cost): pass          | ReservedName 7:21
";

#[test]
fn parameters_are_told_in_order(rt: HostRuntime) -> Result<(), Fail> {
    hold(rt.alloc(), MEMBERS, PARAMETERS, 4)
}

const METHODS: &str = "
    a name with underscores                   | def __add__(self): pass       | ReservedName 7:9
    no result                                 | def price(self): pass         | MissingAnnotation 7:9
    a second __init__                         | def __init__(self, name: str, cost: int): self.name: str = name; self.cost: int = cost | DuplicateMember 7:9
    no result, and a parameter without a type | def price(self, amount): pass | MissingAnnotation 7:21
";

#[test]
fn methods_have_names_and_results(rt: HostRuntime) -> Result<(), Fail> {
    hold(rt.alloc(), MEMBERS, METHODS, 4)
}

const RESULTS: &str = "
    an Optional of None | def price(self) -> Optional[None]: pass | NestedOptional 7:33
    a list of no class  | def price(self) -> List[Cart]: pass     | UnknownType 7:29
";

#[test]
fn types_are_told_at_their_parts(rt: HostRuntime) -> Result<(), Fail> {
    hold(rt.alloc(), MEMBERS, RESULTS, 2)
}

const INIT_RESULTS: &str = "
    no class | def __init__(self, name: str, cost: int) -> Cart:↵    self.name: str = name↵    self.cost: int = cost↵def __key__(self): return self.name↵def price(self) -> int: return self.cost | UnknownType 3:49
    an int   | def __init__(self, name: str, cost: int) -> int:↵    self.name: str = name↵    self.cost: int = cost↵def __key__(self): return self.name↵def price(self) -> int: return self.cost | InitForm 3:9
    None     | def __init__(self, name: str, cost: int) -> None:↵    self.name: str = name↵    self.cost: int = cost↵def __key__(self): return self.name↵def price(self) -> int: return self.cost | Item(name: str, cost: int) key 0 of 0 has name: str, cost: int does price() -> int
";

#[test]
fn an_init_gives_nothing(rt: HostRuntime) -> Result<(), Fail> {
    hold(rt.alloc(), CLASS, INIT_RESULTS, 3)
}

const DECLARED: &str = "
    another statement         | pass                     | InitForm 6:9
    a field twice             | self.cost: int = cost    | DuplicateMember 6:14
    a field named as a method | self.price: int = cost   | DuplicateMember 6:14
    a field of no class       | self.amount: Cart = cost | UnknownType 6:22
    a field without a type    | self.amount = cost       | InitForm 6:9
";

#[test]
fn an_init_declares_fields(rt: HostRuntime) -> Result<(), Fail> {
    hold(rt.alloc(), INIT, DECLARED, 5)
}

const COMPUTED: &str = "
    a field that isn't there yet | self.cost: int = self.amount | InitForm 6:9
    a creation                   | self.amount = Item()         | InitForm 6:9
    an earlier field             | self.amount: int = self.cost | Item(name: str, cost: int) key 0 of 0 has name: str, cost: int, amount: int does price() -> int
";

#[test]
fn an_init_only_computes(rt: HostRuntime) -> Result<(), Fail> {
    hold(rt.alloc(), INIT, COMPUTED, 3)
}

const KEYS: &str = "
    a field of int  | def __key__(self): return self.cost                       | KeyForm 6:9
    a result of int | def __key__(self) -> int: return self.name                | KeyForm 6:9
    parameters      | def __key__(self, name: str, cost: int): return self.name | KeyForm 6:9
    assignments     | def __key__(self): self.name: str = name; self.cost: int = cost | KeyForm 6:9
";

#[test]
fn a_key_is_one_field(rt: HostRuntime) -> Result<(), Fail> {
    hold(rt.alloc(), KEY, KEYS, 4)
}

const NO_KEYS: &str = "
    no __key__                         | def __init__(self, name: str, cost: int):↵    self.name: str = name↵    self.cost: int = cost | KeyForm 2:7
    a field named __key__ in its place | def __init__(self, name: str, cost: int):↵    self.name: str = name↵    self.cost: int = cost↵    self.__key__: int = cost | DuplicateMember 6:14
";

#[test]
fn a_class_has_a_key(rt: HostRuntime) -> Result<(), Fail> {
    hold(rt.alloc(), CLASS, NO_KEYS, 2)
}

/// A piece so many times, with its number in place of `#`.
fn pieces(alloc: Global, piece: &str, count: usize) -> Result<String, AllocError> {
    let mut text = String::new(alloc);
    for number in 0..count {
        let number = format!(in alloc; "{number}")?;
        let numbered = piece.replace(alloc, '#', number.as_str())?;
        text.push_str(numbered.as_str())?;
    }
    Ok(text)
}

/// What is told of so many pieces in their setting.
fn told_of_many(alloc: Global, many: &(Setting, &str, usize)) -> Result<String, Fail> {
    let (setting, piece, count) = many;
    let text = pieces(alloc, piece, *count)?;
    let told = told_in(alloc, *setting, text.as_str());
    drop(text);
    told
}

/// A row has parameters, from line 8 on.
const LAST_PARAMETERS: Setting = Setting {
    head: "@entity
class Item:
    def __init__(self, name: str, cost: int):
        self.name: str = name
        self.cost: int = cost
    def __key__(self): return self.name
    def price(self,
",
    indent: "        ",
    tail: "        ): pass
",
};

/// A row is a whole program.
const PROGRAM: Setting = Setting {
    head: "",
    indent: "",
    tail: "",
};

#[test]
fn there_are_256_of_a_kind(rt: HostRuntime) -> Result<(), Fail> {
    let class = "@entity\nclass C#:\n    def f(self): pass\n";
    let method = "def m#(self) -> int: return 1\n";
    let cases = [
        (
            "parameters",
            (LAST_PARAMETERS, "a#: int,\n", 257),
            "TooMany 264:9",
        ),
        (
            "fields",
            (INIT, "self.f#: int = cost\n", 255),
            "TooMany 260:14",
        ),
        ("methods", (CLASS, method, 257), "TooMany 259:9"),
        ("classes", (PROGRAM, class, 257), "TooMany 770:7"),
    ];
    hold_cases(rt.alloc(), &cases, told_of_many)
}

//! Texts that break two rules, of which the first is told.

use crate::verdict::{BEHIND_A_CLASS, CLASS, MEMBERS, PROGRAM, STATEMENTS, hold};
use std::test::Fail;

const CLASSES: &str = "
    the body of __init__, then a missing result | def __init__(self, k: str):↵    pass↵def __key__(self): return self.k↵def f(self): pass | 4:9: InitForm
    the result of __init__, then a missing one  | def __init__(self, k: str) -> str:↵    self.k: str = k↵def __key__(self): return self.k↵def f(self): pass | 3:9: InitForm
    a field twice, then an unknown class        | def __init__(self, k: str):↵    self.k: str = k↵    self.k: Foo = k↵def __key__(self): return self.k | 5:14: DuplicateMember
    a missing result, then no __init__          | def f(self): return 1 | 3:9: MissingAnnotation
    the result of __init__, then its body       | def __init__(self, k: str) -> str:↵    pass↵def __key__(self): return self.k | 3:9: InitForm
    a call in __init__, then a field twice      | def __init__(self, k: str, n: int):↵    self.k: str = k↵    self.k: int = self.m()↵def __key__(self): return self.k↵def m(self) -> int: return 1 | 5:9: InitForm
    a call in __init__, then an unknown class   | def __init__(self, k: str, n: int):↵    self.k: str = k↵    self.z: Foo = self.m()↵def __key__(self): return self.k↵def m(self) -> int: return 1 | 5:9: InitForm
    a key of no field, then another type        | def __init__(self, k: str, n: int):↵    self.k: str = 1↵def __key__(self): return self.j | 5:9: KeyForm
";

#[test]
fn first_broken_rule_of_a_class_is_told(rt: HostRuntime) -> Result<(), Fail> {
    hold(rt.alloc(), CLASS, CLASSES, 8)
}

const CLASS_MEMBERS: &str = "
    an unknown field, then deep brackets     | def f(self) -> None: self.x = (((((((((((((((((((((((((((((((((((((((((((((((((((((((((((((((1))))))))))))))))))))))))))))))))))))))))))))))))))))))))))))))) | 7:31: UnknownField
    a name with underscores, then no type    | def __f__(self, x): pass                                 | 7:9: ReservedName
    a nested Optional, then an unknown class | def f(self, x: Optional[Optional[Foo]]) -> None: pass    | 7:29: NestedOptional
    two unknown names                        | def f(self) -> None: nosuch↵def g(self) -> None: nosuch2 | 7:26: UnknownName
";

#[test]
fn first_broken_rule_of_members_is_told(rt: HostRuntime) -> Result<(), Fail> {
    hold(rt.alloc(), MEMBERS, CLASS_MEMBERS, 4)
}

const PROGRAMS: &str = "
    another type in two classes                 |     def f(self) -> int: return 's'↵@entity↵class B:↵    def __init__(self, k: str): self.k: str = k; self.n: int = k↵    def __key__(self): return self.k | 7:32: Mismatch
    a missing return, but a key of another type |     def f(self) -> int: pass↵@entity↵class B:↵    def __init__(self, k: str): self.k: str = 1↵    def __key__(self): return self.k | 11:9: KeyForm
    a missing return, then another type         |     def f(self) -> int: pass↵@entity↵class B:↵    def __init__(self, k: str): self.k: str = k; self.n: int = k↵    def __key__(self): return self.k | 7:9: MissingReturn
";

#[test]
fn first_broken_rule_of_a_program_is_told(rt: HostRuntime) -> Result<(), Fail> {
    hold(rt.alloc(), BEHIND_A_CLASS, PROGRAMS, 3)
}

const TWO_CLASSES: &str = "
    a missing result, but a second class | @entity↵class A:↵    def f(self): pass↵@entity↵class A:↵    def __init__(self, k: str): self.k: str = k↵    def __key__(self): return self.k | 5:7: DuplicateClass
";

#[test]
fn second_class_is_told_before_members(rt: HostRuntime) -> Result<(), Fail> {
    hold(rt.alloc(), PROGRAM, TWO_CLASSES, 1)
}

const STATEMENT_RULES: &str = "
    a function's name, then an unknown one     | range = nosuch               | 17:9: ReservedName
    two unknown names                          | y = nosuch(nosuch2)          | 17:13: UnknownName
    a name that a later line assigns           | while b:↵    y = z↵    z = 1 | 18:17: UnknownName
    an unknown field, then an unknown name     | self.z = nosuch              | 17:14: UnknownField
    what may be None, beside a text            | y = s // o                   | 17:15: NoneUse
    a text as a truth, then an unknown name    | y = s or nosuch              | 17:13: Operand
    a text as an operand, then an unknown name | y = min(s, nosuch)           | 17:17: Operand
    an element, then an unknown name           | y = [1, s, nosuch]           | 17:17: Mismatch
    another type, then an unknown name         | y = 1↵y: str = nosuch        | 18:9: LocalRetyped
    the key, then an unknown name              | self.k = nosuch              | 17:9: KeyAssigned
    the key, then another type                 | self.k = 1                   | 17:9: KeyAssigned
    the key, then an operator                  | self.k -= 1                  | 17:9: KeyAssigned
    an unknown name in a comparison            | y = 1 < nosuch               | 17:17: UnknownName
    an unknown name, then another type         | self.n = 's' + nosuch        | 17:24: UnknownName
    an int as a test, then an unknown name     | assert 1, nosuch             | 17:16: Operand
";

#[test]
fn first_broken_rule_of_a_statement_is_told(rt: HostRuntime) -> Result<(), Fail> {
    hold(rt.alloc(), STATEMENTS, STATEMENT_RULES, 15)
}

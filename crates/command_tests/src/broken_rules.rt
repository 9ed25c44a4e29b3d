//! Texts that break one rule, and what `check` says of them.

use crate::verdict::{CLASS, MEMBERS, PROGRAM, STATEMENTS, hold};
use std::test::Fail;

const CLASSES: &str = "
    a class named int              | @entity↵class int:↵    def __init__(self, k: str): self.k: str = k↵    def __key__(self): return self.k | 2:7: ReservedName
    a class named str              | @entity↵class str:↵    def __init__(self, k: str): self.k: str = k↵    def __key__(self): return self.k | 2:7: ReservedName
    two classes of one name        | @entity↵class A:↵    def __init__(self, k: str): self.k: str = k↵    def __key__(self): return self.k↵@entity↵class A:↵    def __init__(self, k: str): self.k: str = k↵    def __key__(self): return self.k | 6:7: DuplicateClass
    the first of two without types | @entity↵class A:↵    def f(self): return 1↵@entity↵class B:↵    def g(self, x): return 1 | 3:9: MissingAnnotation
";

#[test]
fn each_rule_on_programs_is_told_at_its_place(rt: HostRuntime) -> Result<(), Fail> {
    hold(rt.alloc(), PROGRAM, CLASSES, 4)
}

const WHOLE_CLASSES: &str = "
    two parameters of one name     | def __init__(self, k: str, k: int):↵    self.k: str = k↵def __key__(self): return self.k | 3:32: DuplicateMember
    a field declared twice         | def __init__(self, k: str):↵    self.k: str = k↵    self.k: str = k↵def __key__(self): return self.k | 5:14: DuplicateMember
    a method without a result      | def __init__(self, k: str, n: int):↵    self.k: str = k↵def __key__(self): return self.j↵def f(self): pass | 6:9: MissingAnnotation
    a field of an unknown class    | def __init__(self, k: str):↵    self.k: str = k↵    self.x: Foo = k↵def __key__(self): return self.k | 5:17: UnknownType
    a method, and no __init__      | def f(self) -> int:↵    return 1     | 2:7: InitForm
    a __key__, and no __init__     | def __key__(self):↵    return self.k | 2:7: InitForm
    a __key__ that passes          | def __init__(self, k: str, n: int):↵    self.k: str = k↵def __key__(self): pass | 5:9: KeyForm
    a __key__ that returns nothing | def __init__(self, k: str, n: int):↵    self.k: str = k↵def __key__(self): return | 5:9: KeyForm
";

#[test]
fn each_rule_on_classes_is_told_at_its_place(rt: HostRuntime) -> Result<(), Fail> {
    hold(rt.alloc(), CLASS, WHOLE_CLASSES, 8)
}

const CLASS_MEMBERS: &str = "
    a parameter named as the class        | def f(self, A: int) -> None: pass                  | 7:17: ReservedName
    a parameter named as a function       | def f(self, len: int) -> None: pass                | 7:17: ReservedName
    a second __key__                      | def __key__(self): return self.k                   | 7:9: DuplicateMember
    a parameter named twice               | def f(self, x: int, y: int, x) -> None: pass       | 7:33: DuplicateMember
    a parameter without a type, no result | def f(self, x): pass                               | 7:17: MissingAnnotation
    a parameter without a type            | def f(self, x) -> None: pass                       | 7:17: MissingAnnotation
    an unknown class, no result           | def f(self, x: Foo): pass                          | 7:20: UnknownType
    an unknown class                      | def f(self, x: Foo) -> None: pass                  | 7:20: UnknownType
    an Optional of an Optional            | def f(self) -> Optional[Optional[str]]: pass       | 7:29: NestedOptional
    an Optional of None                   | def f(self, x: List[Optional[None]]) -> None: pass | 7:34: NestedOptional
";

#[test]
fn each_rule_on_members_is_told_at_its_place(rt: HostRuntime) -> Result<(), Fail> {
    hold(rt.alloc(), MEMBERS, CLASS_MEMBERS, 10)
}

const FLOW: &str = "
    augmented behind one branch  | if b: y = 1↵y += 1      | 18:9: Unassigned
    the name of a loop behind it | for y in xs: pass↵z = y | 18:13: Unassigned
    read behind one branch       | if b:↵    y = 1↵z = y   | 19:13: Unassigned
    None for an int              | y = 1↵y = None          | 18:9: LocalRetyped
    an int for None              | y = None↵y = 1          | 18:9: LocalRetyped
    a text as the name of a loop | for s in range(3): pass | 17:13: LocalRetyped
    the key                      | self.k = s              | 17:9: KeyAssigned
    the key, augmented           | self.k += s             | 17:9: KeyAssigned
    the key in a branch          | if b:↵    self.k = s    | 18:13: KeyAssigned
    a break alone                | break                   | 17:9: LoopWord
    a break behind a statement   | x = 1; break            | 17:16: LoopWord
    a break behind a loop        | while b: break↵break    | 18:9: LoopWord
    a local named as a function  | len = 1                 | 17:9: ReservedName
    a local named as a type      | str: int = 1            | 17:9: ReservedName
    a field declared in a method | self.n: int = 1         | 17:9: InitForm
";

#[test]
fn each_rule_on_statements_is_told_at_its_place(rt: HostRuntime) -> Result<(), Fail> {
    hold(rt.alloc(), STATEMENTS, FLOW, 15)
}

const ENDS: &str = "
    pass                         | def f(self) -> int: pass                        | 7:9: MissingReturn
    a call                       | def f(self) -> 'A': self.f()                    | 7:9: MissingReturn
    an assignment                | def f(self) -> List[int]: x = 1                 | 7:9: MissingReturn
    assert False                 | def f(self) -> int: assert False                | 7:9: MissingReturn
    a return in a branch of True | def f(self) -> int:↵    if True: return 1       | 7:9: MissingReturn
    a return in a branch         | def f(self, b: bool) -> int:↵    if b: return 1 | 7:9: MissingReturn
";

#[test]
fn end_that_is_reached_without_a_result_is_told(rt: HostRuntime) -> Result<(), Fail> {
    hold(rt.alloc(), MEMBERS, ENDS, 6)
}

const TYPES: &str = "
    the name of a class          | y = A             | 17:13: UnknownName
    the name of a field          | y = n             | 17:13: UnknownName
    a field of another entity    | y = a.n           | 17:15: RemoteField
    a field of a text            | y = 'a'.n         | 17:17: RemoteField
    an unknown field assigned    | self.z = 1        | 17:14: UnknownField
    __init__ as a field          | y = self.__init__ | 17:18: UnknownField
    what may be None added       | x += o            | 17:11: NoneUse
    what may be None as a test   | assert o          | 17:16: NoneUse
    a text multiplied            | s *= 2            | 17:11: Operand
    an entity as a test          | assert a          | 17:16: Operand
    __key__ called               | a.__key__()       | 17:11: UnknownMethod
    an unknown method            | self.nosuch()     | 17:14: UnknownMethod
    an argument too few          | a.put()           | 17:11: ArgCount
    a function of nothing        | y = len()         | 17:13: ArgCount
    a result of another type     | return 1          | 17:16: Mismatch
    an argument of another type  | a.put((s))        | 17:16: Mismatch
    an empty list                | y = []            | 17:13: EmptyListType
    an empty list as an argument | y = len([])       | 17:17: EmptyListType
";

#[test]
fn each_rule_on_types_is_told_at_its_place(rt: HostRuntime) -> Result<(), Fail> {
    hold(rt.alloc(), STATEMENTS, TYPES, 18)
}

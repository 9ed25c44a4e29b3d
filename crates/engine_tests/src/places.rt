//! A method with a call that leaves its entity in each place where an expression may stand.

/// The method of each place calls a `B`, and reads something before the call where there is anything to
/// read.
pub const PLACES: &str = r#"from typing import List
from stateflow import entity


@entity
class B:
    def __init__(self, k: str, n: int):
        self.k: str = k
        self.n: int = n

    def __key__(self):
        return self.k

    def get(self) -> int:
        return self.n

    def add(self, d: int) -> int:
        self.n += d
        return self.n

    def is_small(self) -> bool:
        return self.n < 3

    def word(self) -> str:
        return "w"

    def all(self) -> List[int]:
        return [self.n, 1]

    def crash(self) -> int:
        return self.n // 0


@entity
class A:
    def __init__(self, k: str, n: int):
        self.k: str = k
        self.n: int = n

    def __key__(self):
        return self.k

    def get(self) -> int:
        return self.n

    def total(self, b: B) -> int:
        return self.n + b.add(1)

    def twice(self, b: B) -> int:
        return b.add(1) * 10 + b.add(1)

    def greatest(self, b: B) -> int:
        return max(b.add(1), b.add(-1))

    def items(self, b: B) -> List[int]:
        return [b.add(1), self.n, b.add(1)]

    def place(self, b: B) -> int:
        return b.all()[b.get() - 6]

    def less(self, b: B) -> bool:
        return b.get() < b.add(1)

    def both(self, b: B) -> bool:
        return b.is_small() and b.add(1) > 0

    def either(self, b: B) -> bool:
        return b.is_small() or b.add(1) > 0

    def choice(self, b: B) -> int:
        return b.add(1) if b.is_small() else b.add(10)

    def flip(self, b: B) -> bool:
        return not b.is_small()

    def minus(self, b: B) -> int:
        return -b.get()

    def until(self, b: B) -> int:
        i = 0
        while b.add(-5) > 0:
            i += 1
        return i

    def over(self, b: B) -> int:
        t = 0
        for x in b.all():
            t += x * b.add(1)
        return t

    def count(self, b: B) -> int:
        t = 0
        for i in range(b.add(2)):
            t += b.add(1)
        return t

    def back(self, b: B) -> int:
        return b.get()

    def claim(self, b: B) -> int:
        assert b.is_small(), b.word()
        return 0

    def refuse(self, b: B) -> int:
        raise ValueError(b.word())

    def grow(self, b: B) -> int:
        self.n += b.add(1)
        return self.n

    def make(self, b: B) -> int:
        c = B(b.word(), b.add(1))
        return c.get()

    def keep(self, b: B) -> int:
        xs = [1, 2, 3]
        t = 0
        for x in xs:
            xs = [b.get()]
            t += x
        return t

    def spoil(self, b: B) -> int:
        self.n = 99
        return b.crash()

    def again(self) -> int:
        c = B("y", 1)
        return c.get()
"#;

/// The values that Python gives, the entities being objects, with the events that the calls make: one for
/// the request, and two for each call that returns.
pub const IN_EACH_PLACE: &str = r#"
    one                                    | new a A ["x",5]           | {"id":"a","ok":"x","seq":1} batch 1 1 1
    another                                | new b B ["y",2]           | {"id":"b","ok":"y","seq":2} batch 1 1 1
    the right of a sum                     | call 1 A x total ["y"]    | {"id":"1","ok":8,"seq":3} batch 1 1 3
    both sides of a run, in order          | call 2 A x twice ["y"]    | {"id":"2","ok":45,"seq":4} batch 1 1 5
    arguments, in order                    | call 3 A x greatest ["y"] | {"id":"3","ok":6,"seq":5} batch 1 1 5
    elements, around a field               | call 4 A x items ["y"]    | {"id":"4","ok":[6,5,7],"seq":6} batch 1 1 5
    a list and its place                   | call 5 A x place ["y"]    | {"id":"5","ok":1,"seq":7} batch 1 1 5
    both sides of a comparison             | call 6 A x less ["y"]     | {"id":"6","ok":true,"seq":8} batch 1 1 5
    the second of an and isn't needed      | call 7 A x both ["y"]     | {"id":"7","ok":false,"seq":9} batch 1 1 3
    the second of an or is                 | call 8 A x either ["y"]   | {"id":"8","ok":true,"seq":10} batch 1 1 5
    one of two ways                        | call 9 A x choice ["y"]   | {"id":"9","ok":19,"seq":11} batch 1 1 5
    behind not                             | call 10 A x flip ["y"]    | {"id":"10","ok":true,"seq":12} batch 1 1 3
    behind a sign                          | call 11 A x minus ["y"]   | {"id":"11","ok":-19,"seq":13} batch 1 1 3
    the test of a while                    | call 12 A x until ["y"]   | {"id":"12","ok":3,"seq":14} batch 1 1 9
    a list that a loop goes over, once     | call 13 A x over ["y"]    | {"id":"13","ok":1,"seq":15} batch 1 1 7
    the end of a range, once               | call 14 A x count ["y"]   | {"id":"14","ok":15,"seq":16} batch 1 1 9
    a result                               | call 15 A x back ["y"]    | {"id":"15","ok":6,"seq":17} batch 1 1 3
    an assert and its message              | call 16 A x claim ["y"]   | {"error":"AssertionError","id":"16","message":"w","seq":18} batch 1 1 5
    a message that is raised               | call 17 A x refuse ["y"]  | {"error":"ValueError","id":"17","message":"w","seq":19} batch 1 1 3
    the target of += is read before        | call 18 A x grow ["y"]    | {"id":"18","ok":12,"seq":20} batch 1 1 3
    arguments of a creation                | call 19 A x make ["y"]    | {"id":"19","ok":8,"seq":21} batch 1 1 9
    a list that its loop assigns anew      | call 20 A x keep ["y"]    | {"id":"20","ok":6,"seq":22} batch 1 1 7
    a callee fails behind an assignment    | call 21 A x spoil ["y"]   | {"error":"ZeroDivisionError","id":"21","message":"","seq":23} batch 1 1 2
    and nothing of it stays                | call 22 A x get []        | {"id":"22","ok":12,"seq":24} batch 1 1 1
    what is there isn't made again         | call 23 A x again []      | {"error":"AlreadyExists","id":"23","message":"","seq":25} batch 1 1 2
    nor by a request                       | new 24 B ["y",1]          | {"error":"AlreadyExists","id":"24","message":"","seq":26} batch 1 1 1
    what isn't there isn't called          | call 25 B z get []        | {"error":"NoEntity","id":"25","message":"","seq":27} batch 1 1 1
"#;

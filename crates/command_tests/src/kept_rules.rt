//! Texts that keep every rule, near to ones that break it.

use crate::verdict::{STATEMENTS, hold};
use std::test::Fail;

const STATEMENTS_KEPT: &str = "
    a break behind a return        | return↵break                                             | ok: 1 classes, 4 methods
    an element of a list in a loop | for o in xs: y = o + 1                                   | ok: 1 classes, 4 methods
    a key assigned behind a return | return↵self.k = s                                        | ok: 1 classes, 4 methods
    or shows what is not None      | z = o is None or o < 1 or o > 2                          | ok: 1 classes, 4 methods
    a branch that leaves           | if o is None: return↵y = o + 1                           | ok: 1 classes, 4 methods
    a call behind a raise          | raise ValueError↵self.nosuch()                           | ok: 1 classes, 4 methods
    a name behind an endless loop  | while True:↵    pass↵z = y                               | ok: 1 classes, 4 methods
    a declared type for a list     | y: Optional[List[Optional[int]]] = [1, None]             | ok: 1 classes, 4 methods
    statements on one line         | 'doc'; pass; y = 1;↵self.n = y; y += 1;                  | ok: 1 classes, 4 methods
    a list of what is not None     | if o is not None:↵    y = [o]↵    y = [1]                | ok: 1 classes, 4 methods
    both branches leave            | if b: return↵else: raise Exception↵x = 's'               | ok: 1 classes, 4 methods
    the test of a loop shows       | while o is not None:↵    y = o + 1↵    o = None          | ok: 1 classes, 4 methods
    later branches know            | if o is None: pass↵elif o > 1: y = o↵else: y = o + 1     | ok: 1 classes, 4 methods
    not turns what is shown        | if not (o is None): y = o + 1↵if not o is not None: return↵y = o * 2 | ok: 1 classes, 4 methods
    a break of an endless loop     | while True:↵    if b: continue↵    y = 1↵    break↵z = y | ok: 1 classes, 4 methods
    assert shows                   | assert o is not None↵y = o + 1↵assert oa is not None and b, 'no'↵oa.get() | ok: 1 classes, 4 methods
";

#[test]
fn statements_that_keep_every_rule_are_accepted(rt: HostRuntime) -> Result<(), Fail> {
    hold(rt.alloc(), STATEMENTS, STATEMENTS_KEPT, 16)
}

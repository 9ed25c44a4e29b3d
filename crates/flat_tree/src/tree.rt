//! The trees of flat methods.

use block_code::VarTypes;
use py_tree::{Expr, Exprs, Kinds, Name, Stmt};
use sf_list::Sequence;

/// A method whose suspending calls and creations are statements of their own.
#[derive(Drop)]
pub struct Flat {
    pub params: VarTypes,
    pub body: FlatStmts,
}

/// The method that a call names. The meaning goes by the name, as in the source.
#[derive(Clone, Copy, PartialEq, Eq, Debug)]
pub struct Callee {
    pub name: Name,
    /// The number of the receiver's class.
    pub class: u32,
    /// The number of the method in that class.
    pub method: u32,
}

/// The class that a creation names. The meaning goes by the name, as in the source.
#[derive(Clone, Copy, PartialEq, Eq, Debug)]
pub struct Created {
    pub name: Name,
    /// The number of the class.
    pub class: u32,
}

/// A statement of flat code. Only a mark, code, a call, a creation and a turn of a loop take steps.
#[cycle(flat)]
pub enum FlatStmt {
    /// Takes one step.
    Mark,
    /// Assigns a local or a temporary.
    Set(Name, Expr),
    /// Assigns a field of the own entity.
    Put(Name, Expr),
    /// Returns a value.
    Give(Expr),
    /// Fails with the kind of this number and a message.
    Fail(u8, Option<Expr>),
    /// A statement of the source, which takes its own step.
    Code(Stmt),
    Break,
    Continue,
    Call {
        on: Expr,
        callee: Callee,
        args: Exprs,
        into: Name,
        /// What is assigned behind the call.
        after: VarTypes,
    },
    Make {
        class: Created,
        args: Exprs,
        into: Name,
        /// What is assigned behind the creation.
        after: VarTypes,
    },
    If {
        arms: FlatArms,
        other: FlatStmts,
        /// What is assigned behind it, where a way leads there.
        after: Option<VarTypes>,
    },
    /// Each turn takes one step, after its test.
    While {
        /// What is assigned before each test.
        head: VarTypes,
        test: FlatTest,
        /// What is assigned where the body begins.
        start: VarTypes,
        body: FlatStmts,
        /// What is assigned behind it, where a way leads there.
        after: Option<VarTypes>,
    },
    /// A failure of its body goes on in the first clause that names the kind, if there is one.
    Try {
        /// What is assigned where the body begins.
        start: VarTypes,
        body: FlatStmts,
        clauses: FlatClauses,
        /// What is assigned behind it, where a way leads there.
        after: Option<VarTypes>,
    },
}

pub type FlatStmts = Sequence<FlatStmt>;

/// Gives each owned part to a call of `drop`, so that a function that lets a tree go has one step for it.
impl Drop for FlatStmt {
    #[cycle(flat_drop)]
    fn drop(self) {
        match self {
            FlatStmt::Mark | FlatStmt::Break | FlatStmt::Continue => {}
            FlatStmt::Set(_, value) => drop(value),
            FlatStmt::Put(_, value) => drop(value),
            FlatStmt::Give(value) => drop(value),
            FlatStmt::Fail(_, message) => drop(message),
            FlatStmt::Code(code) => drop(code),
            FlatStmt::Call {
                on,
                callee: _,
                args,
                into: _,
                after,
            } => {
                drop(on);
                drop(args);
                drop(after);
            }
            FlatStmt::Make {
                class: _,
                args,
                into: _,
                after,
            } => {
                drop(args);
                drop(after);
            }
            FlatStmt::If { arms, other, after } => {
                drop(arms);
                drop(other);
                drop(after);
            }
            FlatStmt::While {
                head,
                test,
                start,
                body,
                after,
            } => {
                drop(head);
                drop(test);
                drop(start);
                drop(body);
                drop(after);
            }
            FlatStmt::Try {
                start,
                body,
                clauses,
                after,
            } => {
                drop(start);
                drop(body);
                drop(clauses);
                drop(after);
            }
        }
    }
}

/// A test and what runs where it holds.
#[cycle(flat)]
#[derive(Drop)]
pub struct FlatArm {
    pub test: FlatTest,
    /// What is assigned where the body begins.
    pub start: VarTypes,
    pub body: FlatStmts,
    /// What is assigned where the test doesn't hold.
    pub rest: VarTypes,
}

pub type FlatArms = Sequence<FlatArm>;

/// What runs where the body of a `try` fails with one of some kinds.
#[cycle(flat)]
#[derive(Drop)]
pub struct FlatClause {
    /// Their numbers.
    pub kinds: Kinds,
    /// What is assigned where the body begins.
    pub start: VarTypes,
    pub body: FlatStmts,
}

pub type FlatClauses = Sequence<FlatClause>;

/// A test. What it shows of None is what the same test of the source shows.
#[cycle(flat)]
pub enum FlatTest {
    /// Statements that run before, and an expression that tells.
    Leaf(FlatStmts, Expr),
    Not(Box<FlatTest>),
    And(Operands),
    Or(Operands),
}

/// Gives each owned part to a call of `drop`, as for [`FlatStmt`].
impl Drop for FlatTest {
    #[cycle(flat_drop)]
    fn drop(self) {
        match self {
            FlatTest::Leaf(before, value) => {
                drop(before);
                drop(value);
            }
            FlatTest::Not(test) => drop(test),
            FlatTest::And(operands) => drop(operands),
            FlatTest::Or(operands) => drop(operands),
        }
    }
}

/// An operand of `and` or `or`.
#[cycle(flat)]
#[derive(Drop)]
pub struct Operand {
    pub test: FlatTest,
    /// What is assigned behind it, where it doesn't decide.
    pub rest: VarTypes,
}

pub type Operands = Sequence<Operand>;

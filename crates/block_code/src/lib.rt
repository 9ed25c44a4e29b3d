//! Blocks of methods, the events that run them one record at a time, and the graph of a program.
//!
//! A block holds code that doesn't suspend. At its end the method leaves, goes on at another block,
//! or suspends at a call or a creation, and then a frame keeps its variables until the result comes
//! back. Contracts see blocks as plain ones, by the views of `specs/`.
#![tactic(auto)]

mod block;
mod copies;
mod event;
mod graph;
mod item;
mod text;
mod vars;

pub use block::{Block, Blocks, Catch, Catches, End, MethodBlocks};
pub use event::{Event, EventKind, Frame, Frames};
pub use graph::Graph;
pub use item::{Item, Items};
pub use py_tree::Kinds;
pub use vars::{VarType, VarTypes};

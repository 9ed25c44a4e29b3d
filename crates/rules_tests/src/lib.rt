//! Tests of the rules of the language on texts: class tables, types of expressions, and flow.
#![tactic(auto)]

#[cfg(test)]
mod class_tables;
#[cfg(test)]
mod expression_types;
#[cfg(test)]
mod flow;
#[cfg(test)]
mod points;
#[cfg(test)]
mod telling;

//! Tests of what a text is: its lines of tokens, its tree, or its first fault.
#![tactic(auto)]

#[cfg(test)]
mod cut_programs;
#[cfg(test)]
mod grammar_lines;
#[cfg(test)]
mod levels;
#[cfg(test)]
mod lexical_faults;
#[cfg(test)]
mod outcome;
#[cfg(test)]
mod refused_tokens;
#[cfg(test)]
mod signs_and_numbers;
#[cfg(test)]
mod small_programs;
#[cfg(test)]
mod tokens;
#[cfg(test)]
mod trees;
#[cfg(test)]
mod wrong_tokens;

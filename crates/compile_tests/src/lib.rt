//! Tests of what texts are compiled to.
#![tactic(auto)]

#[cfg(test)]
mod graph_texts;

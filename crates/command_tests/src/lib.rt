//! Tests of what the program says of a text: the line that `check` prints, the graph that `compile` prints, the faults
//! that both tell, and what `audit` says of a run.
#![tactic(auto)]

#[cfg(test)]
mod audits;
#[cfg(test)]
mod broken_rules;
#[cfg(test)]
mod compiled_graphs;
#[cfg(test)]
mod greatest_texts;
#[cfg(test)]
mod kept_rules;
#[cfg(test)]
mod last;
#[cfg(test)]
mod rule_order;
#[cfg(test)]
mod told_faults;
#[cfg(test)]
mod verdict;
#[cfg(test)]
mod whole_checks;
#[cfg(test)]
mod words;

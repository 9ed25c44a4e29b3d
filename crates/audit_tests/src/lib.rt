//! Tests of audits: verdicts on files of request lines and reply lines, worked out by hand.
#![tactic(auto)]

#[cfg(test)]
mod audited;
#[cfg(test)]
mod limits;
#[cfg(test)]
mod verdicts;

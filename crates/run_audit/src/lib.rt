//! What a file of request lines and reply lines is, by one serial run of its requests: the definition, laws of it, and a judge of its lines.
#![tactic(auto)]

mod auditing;
mod fault;
mod judging;
mod laws;
mod verdict;

pub use auditing::audit;
pub use fault::AuditFault;
pub use judging::Judge;
pub use laws::fronts_decide;
pub use verdict::Verdict;

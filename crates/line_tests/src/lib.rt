//! Tests of what a request line leads to: values, what requests do to the state, and the lines of replies.
#![tactic(auto)]

#[cfg(test)]
mod one_record;
#[cfg(test)]
mod replies;
#[cfg(test)]
mod requests;
#[cfg(test)]
mod served;
#[cfg(test)]
mod values;

//! Requests and batches as short texts.

use crate::values_told;
use sf_value::{Act, BatchRecord, Request};
use std::alloc::{AllocError, Global};

/// What a request asks for, with the numbers of its class and method.
pub fn act_told(alloc: Global, act: &Act) -> Result<String, AllocError> {
    match act {
        Act::Call {
            class,
            key,
            method,
            args,
        } => {
            let args = values_told(alloc, args.as_slice())?;
            format!(in alloc; "{class}:{}.{method}({args})", key.as_str())
        }
        Act::New { class, args } => {
            let args = values_told(alloc, args.as_slice())?;
            format!(in alloc; "new {class}({args})")
        }
    }
}

pub fn request_told(alloc: Global, request: &Request) -> Result<String, AllocError> {
    let act = act_told(alloc, &request.act)?;
    format!(in alloc; "{}: {act}", request.id.as_str())
}

/// The new requests of a batch, and the places that it commits.
pub fn batch_told(alloc: Global, batch: &BatchRecord) -> Result<String, AllocError> {
    let mut told = String::new(alloc);
    for request in batch.news.as_slice() {
        told.push_str(request_told(alloc, request)?.as_str())?;
        told.push_str(", ")?;
    }
    format!(in alloc; "{told}commits {:?}", batch.committed.as_slice())
}

//! The words that the process was started with.

use std::alloc::{AllocError, Global};
use std::env::{self, Env, FillError};
use std::io;

/// What a process was started with, but for the program's own name.
#[derive(Drop)]
struct BehindName<E> {
    all: E,
}

impl<E: Env> Env for BehindName<E> {
    fn arg(&self, i: usize, buf: &mut [u8]) -> Result<usize, FillError> {
        match i.checked_add(1) {
            Some(place) => self.all.arg(place, buf),
            None => Err(FillError::NotPresent),
        }
    }

    fn var(&self, name: &str, buf: &mut [u8]) -> Result<usize, FillError> {
        self.all.var(name, buf)
    }

    fn var_at(&self, i: usize, buf: &mut [u8]) -> Result<usize, FillError> {
        self.all.var_at(i, buf)
    }
}

/// The words behind the program's name. Where one of them is no text in UTF-8 there are none, and nothing is asked for. It fails only where memory is
/// wanting.
pub(crate) fn words_of<E: Env + Drop>(alloc: Global, all: E) -> Result<Vec<String>, AllocError> {
    match env::args(&(BehindName { all }, alloc)) {
        Ok(words) => words.collect::<Vec<String>>(alloc),
        Err(error) if error.kind() == io::ErrorKind::OutOfMemory => Err(AllocError),
        Err(_) => Ok(Vec::new(alloc)),
    }
}

//! Programs that the lines of a row stand in.

use std::alloc::{AllocError, Global};

/// What stands before and behind the lines of a row, and how deep they are.
#[derive(Clone, Copy)]
pub struct Setting {
    pub head: &'static str,
    pub indent: &'static str,
    pub tail: &'static str,
}

/// The program with these lines in it.
pub fn text_in(alloc: Global, setting: Setting, lines: &str) -> Result<String, AllocError> {
    let mut text = String::from_str(alloc, setting.head)?;
    for line in lines.lines() {
        text.push_str(setting.indent)?;
        text.push_str(line)?;
        text.push('\n')?;
    }
    text.push_str(setting.tail)?;
    Ok(text)
}

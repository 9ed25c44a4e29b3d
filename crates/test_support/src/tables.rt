//! Tables of rows, as one text with a row a line.
//!
//! A row has a label, a text and what is wanted of it, with `|` between them. In the text `↵` stands
//! for the end of a line.

use std::alloc::{AllocError, Global};

/// A row of a table.
#[derive(Drop)]
pub struct Row<'a> {
    pub label: &'a str,
    pub text: String,
    pub wanted: &'a str,
}

/// A line of a table as a row. What is wanted of a line with fewer parts is what no text gives.
fn row_of<'a>(alloc: Global, line: &'a str) -> Result<Row<'a>, AllocError> {
    let (label, rest) = line.split_once(" | ").unwrap_or(("a label", line));
    let (text, wanted) = rest.split_once(" | ").unwrap_or((rest, "three parts"));
    Ok(Row {
        label: label.trim(),
        text: text.trim_end().replace(alloc, '↵', "\n")?,
        wanted: wanted.trim(),
    })
}

/// The rows of a table, in order. Lines without a word are none.
pub fn rows<'a>(alloc: Global, table: &'a str) -> Result<Vec<Row<'a>>, AllocError> {
    let mut rows = Vec::new(alloc);
    for line in table.lines() {
        if !line.trim().is_empty() {
            rows.push(row_of(alloc, line)?)?;
        }
    }
    Ok(rows)
}

#[cfg(test)]
mod tests {
    use super::{Row, rows};
    use crate::holding::hold_text;
    use std::alloc::{AllocError, Global};
    use std::test::Fail;

    const TABLE: &str = "
        a label | one↵  two |  1:2 wanted
        b       |   three   |  ok

        a line with fewer parts
    ";

    /// How many rows there are, and the parts of each.
    fn rows_told(alloc: Global, rows: &[Row<'_>]) -> Result<String, AllocError> {
        let mut told = format!(in alloc; "{}:", rows.len())?;
        for row in rows {
            let text = row.text.as_str();
            told.push_str(format!(in alloc; "{};{text};{};", row.label, row.wanted)?.as_str())?;
        }
        Ok(told)
    }

    #[test]
    fn a_row_has_three_parts(rt: HostRuntime) -> Result<(), Fail> {
        let rows = rows(rt.alloc(), TABLE)?;
        let told = rows_told(rt.alloc(), rows.as_slice());
        drop(rows);
        hold_text(
            told,
            "3:a label;one\n  two;1:2 wanted;b;  three;ok;a label;        a line with fewer parts;three parts;",
        )
    }
}

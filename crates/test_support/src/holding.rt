//! Rows that are held to what is told of them.

use crate::tables::rows;
use std::alloc::Global;
use std::test::Fail;

/// Fails unless this text is told.
pub fn hold_text<E: Into<Fail>>(told: Result<String, E>, wanted: &str) -> Result<(), Fail> {
    match told {
        Ok(told) if told.as_str() == wanted => Ok(()),
        Ok(told) => Err(Fail::new(format_args!("{wanted:?} is wanted, and {told:?} is told"))),
        Err(error) => Err(error.into()),
    }
}

/// The first row of a table of which something else is told than is wanted, with what is told, or nothing where a table of so many
/// rows has none.
fn other_in_table<F: Fn(Global, &str) -> Result<String, Fail>>(
    alloc: Global,
    table: &str,
    count: usize,
    told: F,
) -> Result<String, Fail>
    requires { F.IsAlwaysCallable told }
{
    let rows = rows(alloc, table)?;
    for row in &rows {
        let found = told(alloc, row.text.as_str())?;
        if found.as_str() != row.wanted {
            return Ok(format!(in alloc; "{}: {found}", row.label)?);
        }
    }
    if rows.len() != count {
        return Ok(format!(in alloc; "there are {} rows", rows.len())?);
    }
    Ok(String::new(alloc))
}

/// Fails unless a table has so many rows, and of the text of each is told what is wanted.
pub fn hold_table<F: Fn(Global, &str) -> Result<String, Fail>>(
    alloc: Global,
    table: &str,
    count: usize,
    told: F,
) -> Result<(), Fail>
    requires { F.IsAlwaysCallable told }
{
    hold_text(other_in_table(alloc, table, count, told), "")
}

/// A label, what is looked at, and what is wanted of it.
pub type Case<'a, T> = (&'a str, T, &'a str);

/// The first case of which something else is told than is wanted, with what is told, or nothing.
fn other_case<T, F: Fn(Global, &T) -> Result<String, Fail>>(
    alloc: Global,
    cases: &[Case<'_, T>],
    told: F,
) -> Result<String, Fail>
    requires { F.IsAlwaysCallable told }
{
    for (label, case, wanted) in cases {
        let found = told(alloc, case)?;
        if found.as_str() != *wanted {
            return Ok(format!(in alloc; "{label}: {found}")?);
        }
    }
    Ok(String::new(alloc))
}

/// Fails unless of each case is told what is wanted.
pub fn hold_cases<T, F: Fn(Global, &T) -> Result<String, Fail>>(
    alloc: Global,
    cases: &[Case<'_, T>],
    told: F,
) -> Result<(), Fail>
    requires { F.IsAlwaysCallable told }
{
    hold_text(other_case(alloc, cases, told), "")
}

#[cfg(test)]
mod tests {
    use super::{Case, hold_cases, other_case, other_in_table};
    use std::alloc::Global;
    use std::test::Fail;

    /// A text with a mark behind it.
    fn marked(alloc: Global, text: &str) -> Result<String, Fail> {
        Ok(format!(in alloc; "{}!", text.trim())?)
    }

    const ONE: &str = "the first | one | one!";

    const TWO: &str = "
        the first  | one | one!
        the second | two | two
    ";

    /// A table, how many rows it is to have, and the other row.
    const TABLES: [Case<'static, (&str, usize)>; 3] = [
        ("one that is so", (ONE, 1), ""),
        ("one of two", (ONE, 2), "there are 1 rows"),
        ("two", (TWO, 2), "the second: two!"),
    ];

    #[test]
    fn the_other_row_is_told(rt: HostRuntime) -> Result<(), Fail> {
        hold_cases(rt.alloc(), &TABLES, |alloc, (table, count)| {
            other_in_table(alloc, table, *count, marked)
        })
    }

    /// A number with a mark behind it.
    fn number_marked(alloc: Global, number: &i32) -> Result<String, Fail> {
        Ok(format!(in alloc; "{number}!")?)
    }

    const CASES: [Case<'static, i32>; 2] = [("the first", 1, "1!"), ("the second", 2, "2")];

    #[test]
    fn the_other_case_is_told(rt: HostRuntime) -> Result<(), Fail> {
        let cases = [
            ("one that is so", &CASES[..1], ""),
            ("two", &CASES, "the second: 2!"),
        ];
        hold_cases(rt.alloc(), &cases, |alloc, cases| {
            other_case(alloc, cases, number_marked)
        })
    }
}

//! Tables of lines with what they are answered: with what each batch came to behind `batch`, how many requests waited,
//! how many of them were committed, and how many events were handled.

ghost use Rattle.line_driver.specs.ReadyEngines.{IsReady};

use crate::driver::Driver;
use crate::request_lines::line_of;
use operator_graph::Watch;
use std::alloc::Global;
use std::test::Fail;
use test_support::rows;

/// What the line of a row is answered; at `end` batches run until nothing waits.
fn told<W: Watch>(
    alloc: Global,
    driver: &mut Driver,
    watch: &mut W,
    text: &str,
) -> Result<String, Fail>
    requires { IsReady driver.old.engine }
    ensures { IsReady driver.new.engine }
{
    if text == "end" {
        return driver.end(alloc, watch);
    }
    let line = line_of(alloc, text)?;
    driver.answer(alloc, watch, line.as_str())
}

/// The first row that is answered otherwise, or nothing.
pub fn other_answer<W: Watch>(
    alloc: Global,
    driver: &mut Driver,
    watch: &mut W,
    table: &str,
) -> Result<String, Fail>
    requires { IsReady driver.old.engine }
    ensures { IsReady driver.new.engine }
{
    let rows = rows(alloc, table)?;
    for row in &rows {
        let told = told(alloc, driver, watch, row.text.as_str())?;
        if told.as_str() != row.wanted {
            return Ok(format!(in alloc; "{}: {told}", row.label)?);
        }
    }
    Ok(String::new(alloc))
}

//! What `check` prints of a program.

ghost use Rattle.std.specs.Prelude.{◌≡◌, ◌<◌, ◌^◌, length, OnOk, OnErr, decimal};
ghost use Rattle.std.specs.List.{sum_by};
ghost use Rattle.std.specs.Io.KnownBytes.{Appends};
ghost use Rattle.sf_outside.specs.Bytes.{AppendsPrefix};
ghost use Rattle.sf_outside.specs.Causes.{HasCause};
ghost use Rattle.stateflow_cli.specs.CheckLine.{counts_line};

use batch_run::write_pieces;
use entity_tables::ClassTable;
use itoa::Buffer;
use sf_outside::{Failed, Sink};

/// How many classes and methods a program has, without `__init__` and `__key__`.
#[derive(Clone, Copy)]
pub struct Counts {
    pub classes: u64,
    pub methods: u64,
}

/// How many methods classes with these tables have.
fn count_methods(tables: &[ClassTable]) -> u64
    requires { sum_by (λ table. length table.methods) tables.now < 2 ^ 64 }
    ensures { result ≡ sum_by (λ table. length table.methods) tables.now }
{
    let mut count = 0;
    for table in tables {
        count += table.methods.len() as u64;
    }
    count
}

impl Counts {
    /// The counts of the classes with these tables.
    pub(crate) fn of(tables: &[ClassTable]) -> Counts
        requires { sum_by (λ table. length table.methods) tables.now < 2 ^ 64 }
        ensures classes { result.classes ≡ length tables.now }
        ensures methods { result.methods ≡ sum_by (λ table. length table.methods) tables.now }
    {
        Counts {
            classes: tables.len() as u64,
            methods: count_methods(tables),
        }
    }
}

/// Writes the line of these counts.
fn write_counts<K: Sink>(out: &mut K, counts: Counts) -> Result<(), Failed>
    ensures whole { OnOk result (Appends (K.held out.old) (K.held out.new) (counts_line (decimal counts.classes) (decimal counts.methods))) }
    ensures part { OnErr result (AppendsPrefix (K.held out.old) (K.held out.new) (counts_line (decimal counts.classes) (decimal counts.methods))) }
    ensures cause { HasCause (K.faults out.old) (K.faults out.new) result }
{
    let mut class_digits = Buffer::new();
    let mut method_digits = Buffer::new();
    write_pieces(
        out,
        &[
            b"ok: ",
            class_digits.format(counts.classes).as_bytes(),
            b" classes, ",
            method_digits.format(counts.methods).as_bytes(),
            b" methods\n",
        ],
    )
}

/// Writes the line of these counts, and flushes it.
pub(crate) fn print_counts<K: Sink>(out: &mut K, counts: Counts) -> Result<(), Failed>
    ensures whole { OnOk result (Appends (K.held out.old) (K.held out.new) (counts_line (decimal counts.classes) (decimal counts.methods))) }
    ensures part { OnErr result (AppendsPrefix (K.held out.old) (K.held out.new) (counts_line (decimal counts.classes) (decimal counts.methods))) }
    ensures cause { HasCause (K.faults out.old) (K.faults out.new) result }
{
    write_counts(out, counts)?;
    out.flush()
}

//! From a file to its program, or to its fault.

ghost use Rattle.std.specs.Prelude.{◌≡◌, ◌≤◌, ◌<◌, min, IfOk, Err, IsUtf8};
ghost use Rattle.std.specs.Str.{chars};
ghost use Rattle.sf_outside.specs.Causes.{Rose};
ghost use Rattle.entity_compiler.specs.Compiling.{IsCompiledOf};
ghost use Rattle.stateflow_cli.specs.Loading.{MayBegin, ReadsAs, Gives, IsCounted, IsChecked, IsCompiledWith, AreKept};
ghost use Rattle.program_text.specs.declared.fault.ProgramFault.{ProgramFault as AFault};

use crate::printing::Counts;
use entity_compiler::{Compiled, compile};
use program_text::{ProgramError, ProgramFault, accept};
use py_tree::Checked;
use sf_outside::{Failed, Files};
use sf_value::Text;
use std::alloc::{AllocError, Global};

/// How many bytes of a file one read may take.
const PIECE: usize = 16384;

/// How many bytes of a file are read: one more than a program may have.
const LONGEST_READ: usize = 1_048_577;

/// Why a file gives no program.
#[derive(Clone, Copy, PartialEq, Eq, Debug)]
pub enum LoadStop {
    Refused(ProgramFault),
    FileFault,
    NoMemory,
}

impl From<AllocError> for LoadStop {
    ghost use Rattle.std.specs.Prelude.{◌≡◌};
    ghost use Rattle.stateflow_cli.specs.declared.loading.LoadStop.TheVariants.{NoMemory};

    ghost from_gives = { λ _ stop. stop ≡ NoMemory };

    fn from(_error: AllocError) -> LoadStop {
        LoadStop::NoMemory
    }
}

impl From<Failed> for LoadStop {
    ghost use Rattle.std.specs.Prelude.{◌≡◌};
    ghost use Rattle.stateflow_cli.specs.declared.loading.LoadStop.TheVariants.{FileFault};

    ghost from_gives = { λ _ stop. stop ≡ FileFault };

    fn from(_fault: Failed) -> LoadStop {
        LoadStop::FileFault
    }
}

impl From<ProgramError> for LoadStop {
    ghost use Rattle.std.specs.Prelude.{◌≡◌};
    ghost use Rattle.stateflow_cli.specs.Loading.{load_stop};

    ghost from_gives = { λ error stop. stop ≡ load_stop error };

    fn from(error: ProgramError) -> LoadStop {
        match error {
            ProgramError::Fault(fault) => LoadStop::Refused(fault),
            ProgramError::NoMemory => LoadStop::NoMemory,
        }
    }
}

/// The next piece's greatest size.
fn room_for(left: usize) -> usize
    requires { 0 < left }
    ensures value { result ≡ min left PIECE }
    ensures some { 0 < result }
{
    if left < PIECE { left } else { PIECE }
}

/// Reads the first bytes of a file, at most `bound` of them.
fn read_first<F: Files>(
    alloc: Global,
    bound: usize,
    files: &mut F,
    name: &str,
) -> Result<Vec<u8>, LoadStop>
    ensures begins { IfOk result (λ text. MayBegin (F.content files.old name.now) bound text.items) }
    ensures stays { AreKept (F.content files.old) (F.content files.new) (F.faults files.old) (F.faults files.new) }
    ensures cause { result ≡ Err LoadStop.FileFault → Rose (F.faults files.old name.now) (F.faults files.new name.now) }
    ensures refused { (fault : AFault) → result ≡ Err (LoadStop.Refused fault) → ⊥ }
{
    let mut text = Vec::new(alloc);
    let mut piece = [0; PIECE];
    while text.len() < bound {
        let room = room_for(bound - text.len());
        let count = files.read_at(name, text.len() as u64, &mut piece[..room])?;
        if count == 0 {
            return Ok(text);
        }
        text.extend_from_slice(&piece[..count])?;
    }
    Ok(text)
}

/// What there is to count in a text that is accepted.
fn read_counts(alloc: Global, text: &[u8]) -> Result<Counts, LoadStop>
    ensures { ReadsAs IsCounted text.now result }
{
    let accepted = accept(alloc, text)?;
    Ok(Counts::of(accepted.tables.as_slice()))
}

/// The program of a text that is accepted, without its tables.
fn read_program(alloc: Global, text: &[u8]) -> Result<Checked, LoadStop>
    ensures { ReadsAs IsChecked text.now result }
{
    let accepted = accept(alloc, text)?;
    Ok(accepted.program)
}

/// The compiled program of a text that is accepted.
fn read_compiled(alloc: Global, text: &[u8]) -> Result<Compiled, LoadStop>
    ensures { ReadsAs IsCompiledOf text.now result }
{
    let compiled = compile(alloc, text)?;
    Ok(compiled)
}

/// A program that was compiled, with its text.
#[derive(Drop)]
pub(crate) struct CompiledText {
    pub(crate) compiled: Compiled,
    pub(crate) text: Text,
}

/// A text's characters.
fn copy_text(alloc: Global, text: &[u8]) -> Result<Text, AllocError>
    requires { IsUtf8 text.now }
    ensures { IfOk result (λ made. made ≡ chars text.now) }
{
    Text::of(alloc, std::str::from_utf8(text).unwrap())
}

/// The compiled program of a text that is accepted, with the text.
fn read_with_text(alloc: Global, text: &[u8]) -> Result<CompiledText, LoadStop>
    ensures { ReadsAs IsCompiledWith text.now result }
{
    let compiled = read_compiled(alloc, text)?;
    match copy_text(alloc, text) {
        Ok(text) => Ok(CompiledText { compiled, text }),
        Err(_) => {
            drop(compiled);
            Err(LoadStop::NoMemory)
        }
    }
}

/// Reads what there is to count in a file's program.
pub(crate) fn count<F: Files>(alloc: Global, files: &mut F, name: &str) -> Result<Counts, LoadStop>
    ensures gives { Gives IsCounted (F.content files.old name.now) result }
    ensures cause { result ≡ Err LoadStop.FileFault → Rose (F.faults files.old name.now) (F.faults files.new name.now) }
{
    let text = read_first(alloc, LONGEST_READ, files, name)?;
    read_counts(alloc, text.as_slice())
}

/// Reads a file's program.
pub(crate) fn load<F: Files>(alloc: Global, files: &mut F, name: &str) -> Result<Checked, LoadStop>
    ensures gives { Gives IsChecked (F.content files.old name.now) result }
    ensures stays { AreKept (F.content files.old) (F.content files.new) (F.faults files.old) (F.faults files.new) }
    ensures cause { result ≡ Err LoadStop.FileFault → Rose (F.faults files.old name.now) (F.faults files.new name.now) }
{
    let text = read_first(alloc, LONGEST_READ, files, name)?;
    read_program(alloc, text.as_slice())
}

/// Reads a file's program, and compiles it.
pub(crate) fn load_compiled<F: Files>(
    alloc: Global,
    files: &mut F,
    name: &str,
) -> Result<Compiled, LoadStop>
    ensures gives { Gives IsCompiledOf (F.content files.old name.now) result }
    ensures cause { result ≡ Err LoadStop.FileFault → Rose (F.faults files.old name.now) (F.faults files.new name.now) }
{
    let text = read_first(alloc, LONGEST_READ, files, name)?;
    read_compiled(alloc, text.as_slice())
}

/// Reads a file's program, and compiles it. Its text comes with it.
pub(crate) fn load_with_text<F: Files>(
    alloc: Global,
    files: &mut F,
    name: &str,
) -> Result<CompiledText, LoadStop>
    ensures gives { Gives IsCompiledWith (F.content files.old name.now) result }
    ensures cause { result ≡ Err LoadStop.FileFault → Rose (F.faults files.old name.now) (F.faults files.new name.now) }
{
    let text = read_first(alloc, LONGEST_READ, files, name)?;
    read_with_text(alloc, text.as_slice())
}

//! The bank's program and its requests, number by number.

use std::alloc::{AllocError, Global};
use std::process::Abort;
use std::test::Fail;
use work_gen::{generate, next_number};

const FIRST: &[u8] = b"{\"id\":\"g1\",\"class\":\"Account\",\"new\":[\"a1\",100]}\n";

const LAST_OPENING: &[u8] = b"{\"id\":\"g200\",\"class\":\"Account\",\"new\":[\"a200\",100]}\n";

/// Drawn from 0, by the rule of the generator.
const FIRST_FROM_0: &[u8] =
    b"{\"id\":\"g201\",\"class\":\"Account\",\"key\":\"a8\",\"method\":\"give\",\"args\":[8,\"a25\"]}\n";

/// The third that is drawn from 7.
const THIRD_FROM_7: &[u8] =
    b"{\"id\":\"g203\",\"class\":\"Account\",\"key\":\"a65\",\"method\":\"give\",\"args\":[10,\"a165\"]}\n";

/// The third that is drawn from the greatest number.
const THIRD_FROM_GREATEST: &[u8] =
    b"{\"id\":\"g203\",\"class\":\"Account\",\"key\":\"a86\",\"method\":\"give\",\"args\":[1,\"a48\"]}\n";

/// Whether the work of this number and size ends with this line.
fn ends_with(alloc: Global, number: u64, size: u32, line: &[u8]) -> Result<bool, AllocError> {
    let work = generate(alloc, number, size)?;
    Ok(work.input.as_slice().ends_with(line))
}

/// Asserts that the work of this number and size ends with this line.
fn hold_end(
    rt: &impl Abort,
    alloc: Global,
    number: u64,
    size: u32,
    line: &[u8],
) -> Result<(), Fail> {
    assert!(rt; ends_with(alloc, number, size, line)?, "{number} {size}");
    Ok(())
}

#[test]
fn work_ends_with_the_request_of_its_size(rt: HostRuntime) -> Result<(), Fail> {
    let alloc = rt.alloc();
    hold_end(&rt, alloc, 0, 1, FIRST)?;
    hold_end(&rt, alloc, 5, 200, LAST_OPENING)?;
    hold_end(&rt, alloc, 0, 201, FIRST_FROM_0)?;
    hold_end(&rt, alloc, 7, 203, THIRD_FROM_7)?;
    hold_end(&rt, alloc, u64::MAX, 203, THIRD_FROM_GREATEST)
}

#[test]
fn one_request_is_one_line(rt: HostRuntime) -> Result<(), Fail> {
    let work = generate(rt.alloc(), 0, 1)?;
    let length = work.input.len();
    drop(work);
    assert_eq!(rt; length, FIRST.len());
    Ok(())
}

const PROGRAM_HEAD: &[u8] = b"from stateflow import entity


@entity
class Account:
";

const PROGRAM_END: &[u8] = b"        self.balance -= amount
        return True
";

/// Whether a program has these ends.
fn has_ends(program: &[u8]) -> bool {
    program.starts_with(PROGRAM_HEAD) && program.ends_with(PROGRAM_END)
}

#[test]
fn the_program_is_that_of_a_bank(rt: HostRuntime) -> Result<(), Fail> {
    let work = generate(rt.alloc(), 0, 1)?;
    let is_bank = has_ends(work.program.as_slice());
    drop(work);
    assert!(rt; is_bank);
    Ok(())
}

#[test]
fn the_generator_goes_on_modulo_2_to_the_64th(rt: HostRuntime) -> Result<(), Fail> {
    let found = (next_number(0), next_number(1), next_number(u64::MAX));
    let wanted = (
        1_442_695_040_888_963_407,
        7_806_831_264_735_756_412,
        13_525_302_890_751_722_018,
    );
    assert_eq!(rt; found, wanted);
    Ok(())
}

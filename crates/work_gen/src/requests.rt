//! The requests: 200 accounts are opened, and then each request moves money from one to another.

ghost use Rattle.std.specs.Prelude.{◌≡◌, ◌++◌, map, OnOk, IfOk};
ghost use Rattle.std.specs.List.{concat};
ghost use Rattle.work_gen.specs.Requests as spec;

use crate::draws::draw;
use crate::program::PROGRAM;
use itoa::Buffer;
use sf_list::Sequence;
use sf_value::Bytes;
use std::alloc::{AllocError, Global};

/// How many accounts there are.
const ACCOUNTS: u32 = 200;

/// The text of a program, and the lines of requests to it.
#[derive(Drop)]
pub struct Work {
    pub program: Bytes,
    pub input: Bytes,
}

/// Adds pieces one after another.
fn add_pieces(alloc: Global, bytes: &mut Bytes, pieces: &[&[u8]]) -> Result<(), AllocError>
    ensures { OnOk result (bytes.new ≡ bytes.old ++ concat (map (λ piece. piece.now) pieces.now)) }
{
    for piece in pieces {
        bytes.extend_from_slice(alloc, piece)?;
    }
    Ok(())
}

/// Adds the line of the request of this number, which opens an account.
fn add_opening(alloc: Global, input: &mut Bytes, number: u32) -> Result<(), AllocError>
    ensures { OnOk result (input.new ≡ input.old ++ spec.opening number) }
{
    let mut digits = Buffer::new();
    let number = digits.format(number).as_bytes();
    add_pieces(
        alloc,
        input,
        &[
            b"{\"id\":\"g",
            number,
            b"\",\"class\":\"Account\",\"new\":[\"a",
            number,
            b"\",100]}\n",
        ],
    )
}

/// What a request moves, and between which accounts.
#[derive(Clone, Copy)]
pub struct Transfer {
    pub from: u64,
    pub to: u64,
    pub amount: u64,
}

/// Draws what a request moves.
fn draw_transfer(state: &mut u64) -> Transfer
    ensures drawn { result ≡ spec.transfer state.old }
    ensures state { state.new ≡ spec.behind state.old }
{
    let from = 1 + draw(state) % 200;
    let to = 1 + draw(state) % 200;
    let amount = 1 + draw(state) % 10;
    Transfer { from, to, amount }
}

/// Adds the line of a request that moves money, where the digits of its numbers are given.
fn add_giving(
    alloc: Global,
    input: &mut Bytes,
    number: &[u8],
    from: &[u8],
    amount: &[u8],
    to: &[u8],
) -> Result<(), AllocError>
    ensures { OnOk result (input.new ≡ input.old ++ spec.giving_line number.now from.now amount.now to.now) }
{
    add_pieces(
        alloc,
        input,
        &[
            b"{\"id\":\"g",
            number,
            b"\",\"class\":\"Account\",\"key\":\"a",
            from,
            b"\",\"method\":\"give\",\"args\":[",
            amount,
            b",\"a",
            to,
            b"\"]}\n",
        ],
    )
}

/// Adds the line of the request of this number, which moves money.
fn add_transfer(
    alloc: Global,
    input: &mut Bytes,
    number: u32,
    moved: Transfer,
) -> Result<(), AllocError>
    ensures { OnOk result (input.new ≡ input.old ++ spec.giving number moved) }
{
    let mut digits = Buffer::new();
    let mut from = Buffer::new();
    let mut amount = Buffer::new();
    let mut to = Buffer::new();
    add_giving(
        alloc,
        input,
        digits.format(number).as_bytes(),
        from.format(moved.from).as_bytes(),
        amount.format(moved.amount).as_bytes(),
        to.format(moved.to).as_bytes(),
    )
}

/// Adds the line of the request of this number.
fn add_request(
    alloc: Global,
    input: &mut Bytes,
    number: u32,
    state: &mut u64,
) -> Result<(), AllocError>
    ensures { OnOk result ((input.new ≡ input.old ++ spec.line number state.old) × (state.new ≡ spec.after number state.old)) }
{
    if number <= ACCOUNTS {
        add_opening(alloc, input, number)
    } else {
        add_transfer(alloc, input, number, draw_transfer(state))
    }
}

/// The lines of so many requests, with the numbers drawn from this one on.
fn requests(alloc: Global, number: u64, size: u32) -> Result<Bytes, AllocError>
    ensures { IfOk result (λ input. input ≡ spec.requests size 1 number) }
{
    let mut input = Sequence::new(alloc);
    let mut state = number;
    for before in 0..size {
        add_request(alloc, &mut input, before + 1, &mut state)?;
    }
    Ok(input)
}

/// The work of this number and size: the program of the bank, and so many requests.
#[tactic(auto, unfolding(crate::specs::Requests::program))]
pub fn generate(alloc: Global, number: u64, size: u32) -> Result<Work, AllocError>
    ensures program { IfOk result (λ work. work.program ≡ spec.program) }
    ensures input { IfOk result (λ work. work.input ≡ spec.requests size 1 number) }
{
    let mut program = Sequence::new(alloc);
    program.extend_from_slice(alloc, PROGRAM)?;
    let input = requests(alloc, number, size)?;
    Ok(Work { program, input })
}

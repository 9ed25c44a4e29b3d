//! Requests, by the parameters of what they call or create.

ghost use Rattle.std.specs.Prelude.{◌↔◌, IsTrue, map};
ghost use Rattle.entity_tables.specs.Views.{plain_sig_param, plain_tables};
ghost use Rattle.program_meaning.specs.Fits.{ActFits, CallFits, EachFits, NewFits, param_types};
ghost use Rattle.request_history.specs.SoundHistory.{IdFits, RequestFits};

use crate::tables::{method_of, table_of};
use crate::values::value_fits;
use entity_tables::{ClassTable, SigParam};
use sf_value::{Act, Request, Text, Value};

/// An id has at most this many bytes.
const LONGEST_ID: usize = 64;

/// Whether there are as many values as parameters, and each fits its parameter.
fn args_fit(tables: &[ClassTable], params: &[SigParam], args: &[Value]) -> bool
    ensures { IsTrue result ↔ EachFits (plain_tables tables.now) (param_types (map plain_sig_param params.now)) args.now }
{
    if params.len() != args.len() {
        return false;
    }
    for (i, param) in params.iter().enumerate() {
        if !value_fits(tables, &param.ty, &args[i]) {
            return false;
        }
    }
    true
}

fn call_fits(tables: &[ClassTable], class: u32, method: u32, args: &[Value]) -> bool
    ensures { IsTrue result ↔ CallFits (plain_tables tables.now) class method args.now }
{
    match method_of(tables, class, method) {
        Some(sig) => args_fit(tables, sig.params.as_slice(), args),
        None => false,
    }
}

fn creation_fits(tables: &[ClassTable], class: u32, args: &[Value]) -> bool
    ensures { IsTrue result ↔ NewFits (plain_tables tables.now) class args.now }
{
    match table_of(tables, class) {
        Some(table) => args_fit(tables, table.init.as_slice(), args),
        None => false,
    }
}

fn act_fits(tables: &[ClassTable], act: &Act) -> bool
    ensures { IsTrue result ↔ ActFits (plain_tables tables.now) act.now }
{
    match act {
        Act::Call {
            class,
            key: _,
            method,
            args,
        } => call_fits(tables, *class, *method, args.as_slice()),
        Act::New { class, args } => creation_fits(tables, *class, args.as_slice()),
    }
}

/// Whether a text is an id, which has 1 to 64 bytes.
fn id_fits(id: &Text) -> bool
    ensures { IsTrue result ↔ IdFits id.now }
{
    let text = id.as_str();
    !text.is_empty() && text.len() <= LONGEST_ID
}

/// Whether a request fits the program, its id too.
pub fn request_fits(tables: &[ClassTable], request: &Request) -> bool
    ensures { IsTrue result ↔ RequestFits (plain_tables tables.now) request.now }
{
    id_fits(&request.id) && act_fits(tables, &request.act)
}

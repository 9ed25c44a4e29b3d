//! What is known of each local at a point, apart from its name and type, and where ways meet.

ghost use Rattle.std.specs.Prelude.{◌≡◌, [], ◌∷◌, IfOk, OnOk};
ghost use Rattle.py_tree.specs.Flow as spec;
ghost use Rattle.entity_types.specs.Views.{plain_locals};
ghost use Rattle.flow_types.specs.Views.{plain_standing, plain_standings, plain_breaks, known_or_not};

use entity_types::{Local, Locals};
use sf_list::Sequence;
use std::alloc::{AllocError, Global};

/// What is known of a local at a point.
#[derive(Clone, Copy, Debug)]
pub struct Standing {
    pub assigned: bool,
    pub not_none: bool,
}

/// In the order of the locals. Locals behind them were typed later.
pub type Standings = Sequence<Standing>;

/// What is known of the locals as they are.
#[tactic(auto, unfolding(py_tree::specs::Flow::known_at))]
pub fn known_at(alloc: Global, locals: &[Local]) -> Result<Standings, AllocError>
    ensures { IfOk result (λ made. plain_standings made ≡ spec.known_at (plain_locals locals.now)) }
{
    let mut made = Sequence::new(alloc);
    for local in locals {
        made.push(
            alloc,
            Standing {
                assigned: local.assigned,
                not_none: local.not_none,
            },
        )?;
    }
    Ok(made)
}

/// What is known of a local that is the so-manyth: nothing, where it was typed later.
fn standing_at(known: &[Standing], at: usize) -> Standing
    ensures { plain_standing result ≡ known_or_not (plain_standings known.now) at }
{
    match known.get(at) {
        Some(standing) => *standing,
        None => Standing {
            assigned: false,
            not_none: false,
        },
    }
}

/// Makes the locals stand as they are known at a point.
pub fn settle(locals: &mut Locals, known: &[Standing])
    ensures { plain_locals locals.new ≡ spec.settled (plain_locals locals.old) (plain_standings known.now) }
{
    for i in 0..locals.len() {
        let standing = standing_at(known, i);
        let local = locals.at_mut(i);
        local.assigned = standing.assigned;
        local.not_none = standing.not_none;
    }
}

/// What is known on both of two ways.
#[tactic(auto, unfolding(py_tree::specs::Flow::joined))]
fn on_both(first: Standing, second: Standing) -> Standing
    ensures { spec.joined (plain_standing first ∷ []) (plain_standing second ∷ []) ≡ plain_standing result ∷ [] }
{
    Standing {
        assigned: first.assigned && second.assigned,
        not_none: first.not_none && second.not_none,
    }
}

/// What is known where two ways meet.
fn join(alloc: Global, first: &[Standing], second: &[Standing]) -> Result<Standings, AllocError>
    ensures { IfOk result (λ made. plain_standings made ≡ spec.joined (plain_standings first.now) (plain_standings second.now)) }
{
    let mut made = Sequence::new(alloc);
    for i in 0..first.len().min(second.len()) {
        made.push(alloc, on_both(first[i], second[i]))?;
    }
    Ok(made)
}

/// What is known where two ways meet, of which one or both may not be reached.
pub fn meet(
    alloc: Global,
    first: Option<Standings>,
    second: Option<Standings>,
) -> Result<Option<Standings>, AllocError>
    ensures { IfOk result (λ made. plain_breaks made ≡ spec.meet (plain_breaks first) (plain_breaks second)) }
{
    match (first, second) {
        (None, second) => Ok(second),
        (Some(first), None) => Ok(Some(first)),
        (Some(first), Some(second)) => {
            let met = join(alloc, first.as_slice(), second.as_slice())?;
            Ok(Some(met))
        }
    }
}

/// The way that has come to these locals, where it goes on.
pub fn way(alloc: Global, goes_on: bool, locals: &[Local]) -> Result<Option<Standings>, AllocError>
    ensures { IfOk result (λ made. plain_breaks made ≡ spec.way goes_on (plain_locals locals.now)) }
{
    if !goes_on {
        return Ok(None);
    }
    Ok(Some(known_at(alloc, locals)?))
}

/// Makes the locals stand as they are known where ways have met, if there was one.
pub fn stand_behind(locals: &mut Locals, met: Option<Standings>)
    ensures { plain_locals locals.new ≡ spec.behind_ways (plain_locals locals.old) (plain_breaks met) }
{
    if let Some(known) = met {
        settle(locals, known.as_slice());
    }
}

/// A way that has come to these locals, where it goes on, meets those that came before.
pub fn join_way(
    alloc: Global,
    met: &mut Option<Standings>,
    goes_on: bool,
    locals: &[Local],
) -> Result<(), AllocError>
    ensures { OnOk result (plain_breaks met.new ≡ spec.meet (plain_breaks met.old) (spec.way goes_on (plain_locals locals.now))) }
{
    let next = way(alloc, goes_on, locals)?;
    *met = meet(alloc, met.take(), next)?;
    Ok(())
}

/// Makes the locals stand as they are known where two ways meet, if one is reached.
pub fn stand_where_met(
    alloc: Global,
    locals: &mut Locals,
    first: Option<Standings>,
    second: Option<Standings>,
) -> Result<(), AllocError>
    ensures { OnOk result (plain_locals locals.new ≡ spec.behind_ways (plain_locals locals.old) (spec.meet (plain_breaks first) (plain_breaks second))) }
{
    let met = meet(alloc, first, second)?;
    stand_behind(locals, met);
    Ok(())
}

//! Copies of blocks and of events.

ghost use Rattle.std.specs.Prelude.{◌≡◌, IfOk};
ghost use Rattle.block_code.specs.PlainBlocks.{plain_item, plain_end, plain_block};

use crate::block::{Block, Catch, End};
use crate::event::{Event, EventKind, Frame};
use crate::item::Item;
use program_meaning::{Var, Vars};
use sf_list::{Sequence, TryClone};
use std::alloc::{AllocError, Global};

#[tactic(auto, using(crate::proofs::ListCopies::list_copies))]
fn copy_item(alloc: Global, item: &Item) -> Result<Item, AllocError>
    ensures { IfOk result (λ made. plain_item made ≡ plain_item item.now) }
{
    match item {
        Item::Mark => Ok(Item::Mark),
        Item::Set(name, value) => Ok(Item::Set(*name, value.try_clone(alloc)?)),
        Item::Put(name, value) => Ok(Item::Put(*name, value.try_clone(alloc)?)),
        Item::Give(value) => Ok(Item::Give(value.try_clone(alloc)?)),
        Item::Fail(kind, None) => Ok(Item::Fail(*kind, None)),
        Item::Fail(kind, Some(message)) => Ok(Item::Fail(*kind, Some(message.try_clone(alloc)?))),
        Item::Code(code) => Ok(Item::Code(code.try_clone(alloc)?)),
    }
}

impl TryClone for Item {
    ghost use Rattle.std.specs.Prelude.{◌≡◌};
    ghost use Rattle.block_code.specs.PlainBlocks.{plain_item};

    ghost is_copy = { λ old made. plain_item made ≡ plain_item old };

    fn try_clone(&self, alloc: Global) -> Result<Item, AllocError> {
        copy_item(alloc, self)
    }
}

#[tactic(auto, using(crate::proofs::ListCopies::list_copies))]
fn copy_end(alloc: Global, end: &End) -> Result<End, AllocError>
    ensures { IfOk result (λ made. plain_end made ≡ plain_end end.now) }
{
    match end {
        End::Jump(to) => Ok(End::Jump(*to)),
        End::Branch(test, holds, fails) => {
            Ok(End::Branch(test.try_clone(alloc)?, *holds, *fails))
        }
        End::Leave => Ok(End::Leave),
        End::Call {
            on,
            class,
            method,
            args,
            into,
            after,
        } => {
            let on = on.try_clone(alloc)?;
            let args = args.try_clone(alloc)?;
            Ok(End::Call {
                on,
                class: *class,
                method: *method,
                args,
                into: *into,
                after: *after,
            })
        }
        End::Make {
            class,
            args,
            into,
            after,
        } => {
            let args = args.try_clone(alloc)?;
            Ok(End::Make {
                class: *class,
                args,
                into: *into,
                after: *after,
            })
        }
    }
}

impl TryClone for End {
    ghost use Rattle.std.specs.Prelude.{◌≡◌};
    ghost use Rattle.block_code.specs.PlainBlocks.{plain_end};

    ghost is_copy = { λ old made. plain_end made ≡ plain_end old };

    fn try_clone(&self, alloc: Global) -> Result<End, AllocError> {
        copy_end(alloc, self)
    }
}

impl TryClone for Catch {
    ghost use Rattle.std.specs.Prelude.{◌≡◌};

    ghost is_copy = { λ old made. made ≡ old };

    #[tactic(auto, using(crate::proofs::ListCopies::list_copies))]
    fn try_clone(&self, alloc: Global) -> Result<Catch, AllocError> {
        let mut kinds = Sequence::new(alloc);
        kinds.extend_from_slice(alloc, self.kinds.as_slice())?;
        Ok(Catch { kinds, to: self.to })
    }
}

impl TryClone for Block {
    ghost use Rattle.std.specs.Prelude.{◌≡◌};
    ghost use Rattle.block_code.specs.PlainBlocks.{plain_block};

    ghost is_copy = { λ old made. plain_block made ≡ plain_block old };

    #[tactic(auto, using(crate::proofs::ListCopies::list_copies))]
    fn try_clone(&self, alloc: Global) -> Result<Block, AllocError> {
        let params = self.params.try_clone(alloc)?;
        let code = self.code.try_clone(alloc)?;
        let end = self.end.try_clone(alloc)?;
        let catches = self.catches.try_clone(alloc)?;
        Ok(Block {
            params,
            code,
            end,
            rank: self.rank,
            catches,
        })
    }
}

/// Copies of variables.
#[tactic(auto, using(crate::proofs::ListCopies::list_copies))]
fn copy_vars(alloc: Global, vars: &Vars) -> Result<Vars, AllocError>
    ensures { IfOk result (λ made. made ≡ vars.now) }
{
    let mut made = Sequence::new(alloc);
    for var in vars.as_slice() {
        let value = var.value.try_clone(alloc)?;
        made.push(
            alloc,
            Var {
                name: var.name,
                value,
            },
        )?;
    }
    Ok(made)
}

impl TryClone for Frame {
    ghost use Rattle.std.specs.Prelude.{◌≡◌};

    ghost is_copy = { λ old made. made ≡ old };

    #[tactic(auto, using(crate::proofs::ListCopies::list_copies))]
    fn try_clone(&self, alloc: Global) -> Result<Frame, AllocError> {
        let at = self.at.try_clone(alloc)?;
        let vars = copy_vars(alloc, &self.vars)?;
        Ok(Frame {
            at,
            method: self.method,
            block: self.block,
            vars,
        })
    }
}

#[tactic(auto, using(crate::proofs::ListCopies::list_copies))]
fn copy_kind(alloc: Global, kind: &EventKind) -> Result<EventKind, AllocError>
    ensures { IfOk result (λ made. made ≡ kind.now) }
{
    match kind {
        EventKind::Enter { to, method, args } => {
            let to = to.try_clone(alloc)?;
            let args = args.try_clone(alloc)?;
            Ok(EventKind::Enter {
                to,
                method: *method,
                args,
            })
        }
        EventKind::Make { to, args } => {
            let to = to.try_clone(alloc)?;
            let args = args.try_clone(alloc)?;
            Ok(EventKind::Make { to, args })
        }
        EventKind::Resume(outcome) => Ok(EventKind::Resume(outcome.try_clone(alloc)?)),
        EventKind::Done(outcome) => Ok(EventKind::Done(outcome.try_clone(alloc)?)),
    }
}

impl TryClone for Event {
    ghost use Rattle.std.specs.Prelude.{◌≡◌};

    ghost is_copy = { λ old made. made ≡ old };

    #[tactic(auto, using(crate::proofs::ListCopies::list_copies))]
    fn try_clone(&self, alloc: Global) -> Result<Event, AllocError> {
        let frames = self.frames.try_clone(alloc)?;
        let kind = copy_kind(alloc, &self.kind)?;
        Ok(Event {
            tx: self.tx,
            steps: self.steps,
            frames,
            kind,
        })
    }
}

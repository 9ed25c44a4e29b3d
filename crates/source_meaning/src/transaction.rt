//! What one request sees and changes before it is committed: the records that it has changed, over
//! those of the state, which stay as they are until then.

ghost use Rattle.std.specs.Prelude.{◌≡◌, [], ◌∷◌, ◌++◌, Some, IfOk, IfSome, OnOk, map, is_some};
ghost use Rattle.std.specs.Option.{option_copied};
ghost use Rattle.std.specs.FinMap as finite;
ghost use Rattle.std.specs.FinSet as set;
ghost use Rattle.sf_value.specs.Keys.{key_of};
ghost use Rattle.program_meaning.specs.World.{State, record_at, reading, writing, with_field};
ghost use Rattle.program_meaning.specs.RequestRun.{at_first};
ghost use Rattle.source_meaning.specs.Transactions.{world_of};

use crate::records::Records;
use crate::site::Site;
use crate::vars::set_field;
use few_entities::ByEntity;
use py_tree::Name;
use sf_list::{Sequence, TryClone};
use sf_value::{Ref, Value, Values};
use std::alloc::{AllocError, Global};

/// A request under way. The state that it began with stands in the site of its code.
#[derive(Drop)]
pub(crate) struct Transaction {
    /// The record of each entity that was written.
    pub(crate) changed: ByEntity<Values>,
    /// Each entity that was called or created, also where it was found missing.
    pub(crate) read: ByEntity<()>,
}

/// A transaction that has done nothing yet. It takes no memory.
pub(crate) fn begin(alloc: Global) -> Transaction
    ensures { (s : State) → world_of s result ≡ at_first s }
{
    Transaction {
        changed: ByEntity::new(alloc),
        read: ByEntity::new(alloc),
    }
}

impl Transaction {
    /// The record of an entity, where there is one.
    #[tactic(auto, using(crate::proofs::TransactionLaws::record_laws))]
    pub(crate) fn record<'a>(&'a self, state: &'a Records<'_>, at: &Ref) -> Option<&'a Values>
        ensures { option_copied result ≡ finite.get (world_of state.now self.now).state (key_of at.now) }
    {
        match self.changed.get(at) {
            Some(fields) => Some(fields),
            None => state.get(at),
        }
    }

    /// Whether there is such an entity.
    pub(crate) fn contains(&self, state: &Records<'_>, at: &Ref) -> bool
        ensures { result ≡ is_some (finite.get (world_of state.now self.now).state (key_of at.now)) }
    {
        self.record(state, at).is_some()
    }

    /// Notes that an entity is read.
    pub(crate) fn mark_read(&mut self, at: Ref) -> Result<(), AllocError>
        ensures { (s : State) → OnOk result (world_of s self.new ≡ reading (world_of s self.old) (key_of at)) }
    {
        self.read.put(at, ())
    }

    /// Gives an entity its record.
    pub(crate) fn put(&mut self, at: Ref, fields: Values) -> Result<(), AllocError>
        ensures { (s : State) → OnOk result (world_of s self.new ≡ writing (world_of s self.old) (key_of at) fields) }
    {
        self.changed.put(at, fields)
    }

    /// A copy of the fields of an entity.
    pub(crate) fn copied_fields(
        &self,
        alloc: Global,
        state: &Records<'_>,
        at: &Ref,
    ) -> Result<Values, AllocError>
        ensures { IfOk result (λ fields. fields ≡ record_at (world_of state.now self.now) (key_of at.now)) }
    {
        match self.record(state, at) {
            Some(fields) => fields.try_clone(alloc),
            None => Ok(Sequence::new(alloc)),
        }
    }

    /// Assigns a field of the own entity. Its record is copied where the transaction writes it for the first time.
    pub(crate) fn set_field(
        &mut self,
        site: &Site<'_>,
        name: Name,
        value: Value,
    ) -> Result<(), AllocError>
        ensures { OnOk result (world_of site.now.state.now self.new
            ≡ writing (world_of site.now.state.now self.old) (key_of site.now.me.now)
            (with_field (map (λ x. x.0) site.now.fields.now) (record_at (world_of site.now.state.now self.old) (key_of site.now.me.now)) name.0 value)) }
    {
        match self.changed.replace(site.me, Sequence::new(site.alloc)) {
            Some(mut fields) => {
                set_field(site.fields, &mut fields, name, value);
                self.changed.replace(site.me, fields);
                Ok(())
            }
            None => {
                let mut fields = self.copied_fields(site.alloc, site.state, site.me)?;
                set_field(site.fields, &mut fields, name, value);
                self.put(site.me.try_clone(site.alloc)?, fields)
            }
        }
    }

    /// Adds a field behind those of the own entity.
    pub(crate) fn push_field(&mut self, site: &Site<'_>, value: Value) -> Result<(), AllocError>
        ensures { OnOk result (world_of site.now.state.now self.new
            ≡ writing (world_of site.now.state.now self.old) (key_of site.now.me.now)
            (record_at (world_of site.now.state.now self.old) (key_of site.now.me.now) ++ value ∷ [])) }
    {
        match self.changed.replace(site.me, Sequence::new(site.alloc)) {
            Some(mut fields) => {
                fields.push(site.alloc, value)?;
                self.changed.replace(site.me, fields);
                Ok(())
            }
            None => {
                let mut fields = self.copied_fields(site.alloc, site.state, site.me)?;
                fields.push(site.alloc, value)?;
                self.put(site.me.try_clone(site.alloc)?, fields)
            }
        }
    }

    /// The record of an entity, where the transaction wrote it. All else that it changed is dropped.
    pub(crate) fn into_written(mut self, alloc: Global, at: &Ref) -> Option<Values>
        ensures written { (s : State) → is_some result ≡ set.contains (world_of s self).writes (key_of at.now) }
        ensures fields { (s : State) → IfSome result (λ fields. finite.get (world_of s self).state (key_of at.now) ≡ Some fields) }
    {
        self.changed.replace(at, Sequence::new(alloc))
    }
}

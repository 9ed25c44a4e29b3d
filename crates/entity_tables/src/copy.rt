//! Copies of tables. Each has the plain table of its original.

use crate::table::{ClassTable, Field, Sig, SigParam};
use sf_list::TryClone;
use std::alloc::{AllocError, Global};

impl TryClone for Field {
    ghost use Rattle.std.specs.Prelude.{◌≡◌};
    ghost use Rattle.entity_tables.specs.Views.{plain_field};

    ghost is_copy = { λ old made. plain_field made ≡ plain_field old };

    fn try_clone(&self, alloc: Global) -> Result<Field, AllocError> {
        let ty = self.ty.try_clone(alloc)?;
        Ok(Field {
            name: self.name,
            ty,
        })
    }
}

impl TryClone for SigParam {
    ghost use Rattle.std.specs.Prelude.{◌≡◌};
    ghost use Rattle.entity_tables.specs.Views.{plain_sig_param};

    ghost is_copy = { λ old made. plain_sig_param made ≡ plain_sig_param old };

    fn try_clone(&self, alloc: Global) -> Result<SigParam, AllocError> {
        let ty = self.ty.try_clone(alloc)?;
        Ok(SigParam {
            name: self.name,
            ty,
        })
    }
}

impl TryClone for Sig {
    ghost use Rattle.std.specs.Prelude.{◌≡◌};
    ghost use Rattle.entity_tables.specs.Views.{plain_sig};

    ghost is_copy = { λ old made. plain_sig made ≡ plain_sig old };

    #[tactic(auto, using(crate::proofs::TableCopies::list_copies))]
    fn try_clone(&self, alloc: Global) -> Result<Sig, AllocError> {
        let params = self.params.try_clone(alloc)?;
        let result = self.result.try_clone(alloc)?;
        Ok(Sig {
            name: self.name,
            params,
            result,
        })
    }
}

impl TryClone for ClassTable {
    ghost use Rattle.std.specs.Prelude.{◌≡◌};
    ghost use Rattle.entity_tables.specs.Views.{plain_table};

    ghost is_copy = { λ old made. plain_table made ≡ plain_table old };

    #[tactic(auto, using(crate::proofs::TableCopies::list_copies))]
    fn try_clone(&self, alloc: Global) -> Result<ClassTable, AllocError> {
        let fields = self.fields.try_clone(alloc)?;
        let methods = self.methods.try_clone(alloc)?;
        let init = self.init.try_clone(alloc)?;
        Ok(ClassTable {
            name: self.name,
            key_field: self.key_field,
            key_param: self.key_param,
            fields,
            methods,
            init,
        })
    }
}

//! Variables with their types.

use py_tree::{Name, Ty};
use sf_list::{Sequence, TryClone};
use std::alloc::{AllocError, Global};

/// A variable and its type at a point of a method. A name from the number of the program's names on
/// is a temporary, which has no text.
#[derive(Drop)]
pub struct VarType {
    pub name: Name,
    pub ty: Ty,
}

pub type VarTypes = Sequence<VarType>;

impl TryClone for VarType {
    ghost use Rattle.std.specs.Prelude.{◌≡◌};
    ghost use Rattle.block_code.specs.PlainVars.{plain_var};

    ghost is_copy = { λ old made. plain_var made ≡ plain_var old };

    fn try_clone(&self, alloc: Global) -> Result<VarType, AllocError> {
        let ty = self.ty.try_clone(alloc)?;
        Ok(VarType {
            name: self.name,
            ty,
        })
    }
}

//! Where the blocks of methods go on.

ghost use Rattle.never_back.specs.NeverBack.{SplitNeverGoesBack, CompiledNeverGoesBack};

/// No end and no catch of the blocks of a flat method goes on at the first of them.
pub fn split_never_goes_back()
    ensures { SplitNeverGoesBack }
{}

/// So it is in each method of a program.
pub fn compiled_never_goes_back()
    ensures { CompiledNeverGoesBack }
{}

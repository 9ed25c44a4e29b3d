//! What compiled blocks take.

ghost use Rattle.entity_compiler.specs.Compiling.{CompiledTakeLive};

/// What is live at a block that is compiled of an accepted program is a parameter of it: so `saved` of `live_vars`
/// is exact for each of its methods, and cutting loses nothing that is read.
pub fn compiled_take_live()
    ensures { CompiledTakeLive }
{}

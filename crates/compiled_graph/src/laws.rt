//! What the compiled graph is, and what it means.

ghost use Rattle.compiled_graph.specs.CompiledMeaning.{CompiledBlocksStand, CompiledFits, CompiledMeans, CompiledMethodsMean, QuietIsOneBlock};

/// The compiled graph has the blocks of as many methods as the class tables tell, and those of each flat method stand where a
/// graph has them.
pub fn compiled_blocks_stand()
    ensures { CompiledBlocksStand }
{}

/// A method of an accepted program that may not suspend is one block, where the marks are exact.
pub fn quiet_is_one_block()
    ensures { QuietIsOneBlock }
{}

/// The blocks of each method come to what its body does, where the program is accepted and the flat code numbers callees and
/// classes by their names.
pub fn compiled_methods_mean()
    ensures { CompiledMethodsMean }
{}

/// The compiled graph fits an accepted program, where its flat code keeps the rules.
pub fn compiled_fits()
    ensures { CompiledFits }
{}

/// There the compiled graph means its program: the events of each request that fits, from each state that fits, end as the
/// source's run of that request.
pub fn compiled_means()
    ensures { CompiledMeans }
{}

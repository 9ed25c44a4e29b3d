//! What the blocks of a flat method mean, and where they go on.

ghost use Rattle.method_splitter.specs.SplitMeaning.{BlocksMeanFlat};
ghost use Rattle.method_splitter.specs.SplitPoints.{ParamsArePoints};
ghost use Rattle.method_splitter.specs.SplitRanks.{RanksAreSmall};
ghost use Rattle.method_splitter.specs.SplitTargets.{BlocksGoOn};

/// The blocks of a flat method mean the flat method: for every state, arguments, steps and calls that
/// give no steps back both come to the same outcome, with the same state, reads, writes and steps left.
pub fn blocks_mean_flat()
    ensures { BlocksMeanFlat }
{}

/// What the ends of blocks name is there, and a block that takes no step has a greater rank than those
/// where it goes on, so that none comes again without a step.
pub fn blocks_go_on()
    ensures { BlocksGoOn }
{}

/// The parameters of the first block are the method's, and those of any other are a point of its code:
/// what is surely assigned where the block begins.
pub fn params_are_points()
    ensures { ParamsArePoints }
{}

/// No rank is greater than the number of blocks, so that ranks are small where numbers of blocks are.
pub fn ranks_are_small()
    ensures { RanksAreSmall }
{}

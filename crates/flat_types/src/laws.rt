//! Blocks of flat methods that keep the rules.

ghost use Rattle.flat_types.specs.SplitFits.{BlocksFit};

/// The blocks of a flat method that keeps the rules on types fit: what their code names is typed by their parameters, each way to a
/// block supplies its parameters, what their ends name is there, and no block comes again without a step.
pub fn blocks_fit()
    ensures { BlocksFit }
{}

//! Where what is live at a block is a parameter of it.

ghost use Rattle.live_vars.specs.Saved.{FitGraphsTakeLive};

/// In a graph that fits an accepted program, as the compiled one does: what `saved` is exact for.
pub fn fit_graphs_take_live()
    ensures { FitGraphsTakeLive }
{}

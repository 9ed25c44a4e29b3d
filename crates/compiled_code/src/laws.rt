//! What is compiled of an accepted program fits it, and means it.

ghost use Rattle.compiled_code.specs.CompiledCode.{AcceptedCodeKeepsRules, AcceptedGraphFits, AcceptedGraphMeans};

/// The flat code of each method of an accepted program keeps the rules, and names callees and classes by their numbers.
pub fn accepted_code_keeps_rules()
    ensures { AcceptedCodeKeepsRules }
{}

/// Where the marks are exact, the compiled graph of an accepted program fits it.
pub fn accepted_graph_fits()
    ensures { AcceptedGraphFits }
{}

/// There the compiled graph means its program.
pub fn accepted_graph_means()
    ensures { AcceptedGraphMeans }
{}

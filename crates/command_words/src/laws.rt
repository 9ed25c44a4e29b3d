//! What reading words has to do with their grammar.

ghost use Rattle.command_words.specs.ByGrammar.{WordsAreReadByGrammar};

/// What is read of words from left to right is what they ask for by the grammar, and where they ask for
/// nothing, nothing is read.
pub fn words_are_read_by_grammar()
    ensures { WordsAreReadByGrammar }
{}

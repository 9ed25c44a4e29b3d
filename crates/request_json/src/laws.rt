//! What the definition of request lines says by itself.

ghost use Rattle.request_json.specs.FittingSpellings.{ValuesNestAsTypes, ValuesHaveSpellings, OutcomesHaveSpellings, RecordsHaveSpellings};
ghost use Rattle.request_json.specs.LineSpellings.{LinesHaveSpellings};
ghost use Rattle.request_json.specs.LinesFit.{LinesFit};
ghost use Rattle.request_json.specs.RequestsReadBack.{RequestsReadBack};

/// What a line asks fits its program: the class that it names is there, the method where it is a
/// call, and each parameter has an argument of the type that it declares.
pub fn lines_fit()
    ensures { LinesFit }
{}

/// What a line of an accepted program asks has a spelling in a store, of at most nine times the
/// line's bytes and 100 more.
pub fn lines_have_spellings()
    ensures { LinesHaveSpellings }
{}

/// What fits the types of an accepted program and is light has a spelling in a store, where its
/// numbers and texts are those that a program can hold: a value, what a request comes to, and a
/// record. Lists nest no deeper than their types.
pub fn fitting_things_have_spellings()
    ensures nesting { ValuesNestAsTypes }
    ensures values { ValuesHaveSpellings }
    ensures outcomes { OutcomesHaveSpellings }
    ensures records { RecordsHaveSpellings }
{}

/// The text of a request that fits an accepted program is read as this request, where its numbers and
/// texts are those that a program can hold. A line that long may still be refused for its length.
pub fn requests_read_back()
    ensures { RequestsReadBack }
{}

//! How an input is cut into lines, as the definitions have it, and what a reader gives of it.

ghost use Rattle.input_lines.specs.CutLaws.{LinesEndAtLineEnds, PiecesAreCutInTurn};
ghost use Rattle.input_lines.specs.Given.{LinesAreGivenInTurn};

/// Bytes without an LF, and then an LF, end a line: the part of a line that stood before and these
/// bytes. What comes behind is cut by itself. Where there is no LF, the part goes on.
pub fn lines_end_at_line_ends()
    ensures { LinesEndAtLineEnds }
{}

/// The lines of two pieces are those of the first, and those of the second behind what the first left
/// of a line.
pub fn pieces_are_cut_in_turn()
    ensures { PiecesAreCutInTurn }
{}

/// What a reader has given, call by call, are the whole lines of what it has taken and used.
pub fn lines_are_given_in_turn()
    ensures { LinesAreGivenInTurn }
{}

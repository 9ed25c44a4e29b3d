//! What an accepted text is.

ghost use Rattle.accepted_texts.specs.AcceptedTexts.{AcceptedAreUtf8, AcceptedAreShort, AcceptedAreReal};

/// The bytes of an accepted text are UTF-8, so they are those of its characters, and fewer than a
/// count of four bytes can say. For a text is accepted only where it is read to its end, in
/// comments and strings too, and no reading passes a byte that isn't UTF-8.
pub fn accepted_texts_are_utf8()
    ensures utf8 { AcceptedAreUtf8 }
    ensures short { AcceptedAreShort }
{}

/// What the program of an accepted text writes is real: its written ints have 128 bits, for a wider
/// literal is a fault of the text, and the texts of its names are UTF-8, where the names are a table.
pub fn accepted_programs_are_real()
    ensures { AcceptedAreReal }
{}

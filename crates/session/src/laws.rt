//! What the definitions of a session say by themselves: it prints what one serial run prints, and
//! over an accepted program nothing goes wrong in that run.

ghost use Rattle.std.specs.Prelude.{ℕ, List};
ghost use Rattle.program_meaning.specs.ClassTables.{Source};
ghost use Rattle.request_json.specs.Actions.{Line};
ghost use Rattle.session.specs.Served.{AnswersWhatWasTaken};
ghost use Rattle.session.specs.SerialOutput.{SerialLines, ServesSerially};
ghost use Rattle.session.specs.AnswersFit.{AnswersFit};

/// The replies to all lines are those of one serial run: each that names a place is the line of the
/// entry there, also where it is given again. They end before the first new request that finds as many
/// entries in the history as there may be.
pub fn replies_are_serial()
    ensures { (src : Source) (most : ℕ) (lines : List Line) → SerialLines src most lines }
{}

/// Whatever the result, a session wrote what one serial run prints, or a prefix of it.
pub fn serves_serially()
    ensures { ServesSerially }
{}

/// Whatever the result, what a session wrote answers what it took: a prefix of the replies to the
/// whole lines, or to all lines where the input had ended.
pub fn answers_what_was_taken()
    ensures { AnswersWhatWasTaken }
{}

/// In a session over an accepted program nothing goes wrong: each request that a line asks fits the
/// program, what it comes to fits the request, and the state fits.
pub fn answers_fit()
    ensures { AnswersFit }
{}

//! What of a line of requests counts.

ghost use Rattle.std.specs.Prelude.{◌≡◌};
ghost use Rattle.request_json.specs.Actions.{without_cr};

/// A line has at most this many bytes, its line end not counted.
pub const LONGEST: usize = 1_048_576;

/// A line without a CR at its end.
pub fn trimmed(line: &[u8]) -> &[u8]
    ensures { result.now ≡ without_cr line.now }
{
    if !line.is_empty() && line[line.len() - 1] == b'\r' {
        &line[..line.len() - 1]
    } else {
        line
    }
}

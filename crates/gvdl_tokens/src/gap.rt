//! What stands between tokens.

ghost use Rattle.std.specs.Prelude.{◌≡◌, ◌≤◌, length, drop};
ghost use Rattle.gvdl_tokens.specs.Reading.{behind_gap};

use crate::characters::is_blank;

/// How many bytes of blanks and comments the text begins with.
pub fn gap_len(bytes: &[u8]) -> usize
    ensures within { result ≤ length bytes.now }
    ensures rest { drop result bytes.now ≡ behind_gap bytes.now }
{
    let mut in_comment = false;
    for (i, b) in bytes.iter().enumerate() {
        if in_comment {
            in_comment = *b != b'\n';
        } else if *b == b'#' {
            in_comment = true;
        } else if !is_blank(*b) {
            return i;
        }
    }
    bytes.len()
}

ghost use Rattle.std.specs.Prelude.{◌≡◌, ◌∷◌, ◌++◌, MatchOption};
ghost use Rattle.line_text.specs.Lines.{HasNoFeed};

use crate::words::run_len;

/// The first line without its line feed, and what comes after the line feed; none where there is no line feed.
pub fn cut_line(bytes: &[u8]) -> Option<(&[u8], &[u8])>
    ensures { MatchOption result
        (HasNoFeed bytes.now)
        (λ x. (bytes.now ≡ x.0.now ++ 10 ∷ x.1.now) × HasNoFeed x.0.now) }
{
    let len = run_len(bytes, b'\n');
    if len == bytes.len() {
        return None;
    }
    Some((bytes.split_at(len).0, bytes.split_at(len + 1).1))
}

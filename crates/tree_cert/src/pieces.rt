// The lines of a text, with their line feeds.
ghost use Rattle.std.specs.Prelude.{◌≡◌, ◌<◌, ◌∷◌, ◌++◌, [], length, MatchOption};
ghost use Rattle.tree_cert.specs.Texts.{pieces};

use line_text::cut_line;

/// The first line of a text with its line feed, and what comes after it; the last line of a text may lack its line feed.
/// None where there are no bytes.
pub fn cut_piece(bytes: &[u8]) -> Option<(&[u8], &[u8])>
    ensures piece { MatchOption result
        (bytes.now ≡ [])
        (λ x. pieces bytes.now ≡ x.0.now ∷ pieces x.1.now) }
    ensures parts { MatchOption result
        (bytes.now ≡ [])
        (λ x. (bytes.now ≡ x.0.now ++ x.1.now) × (length x.1.now < length bytes.now)) }
{
    if bytes.is_empty() {
        return None;
    }
    match cut_line(bytes) {
        Some((line, rest)) => Some((bytes.split_at(line.len() + 1).0, rest)),
        None => Some((bytes, bytes.split_at(bytes.len()).1)),
    }
}

// Why a content was not read.
ghost use Rattle.std.specs.Prelude.{◌≡◌, ◌⊎◌};

use crate::rule::Rule;

/// How many levels `serde_json` reads.
const MOST_LEVELS: usize = 127;

/// The rule that a text breaks which `serde_json` refused with this error: it is no JSON, or it may be JSON that `serde_json` does not
/// take.
pub fn why_unread(text: &str, error: &str) -> Rule
    ensures { (result ≡ Rule.NotJson) ⊎ (result ≡ Rule.Unreadable) }
{
    if error.contains("out of range") || is_deep(text) || has_surrogate(text) {
        Rule::Unreadable
    } else {
        Rule::NotJson
    }
}

/// Whether a text nests deeper than `serde_json` reads.
fn is_deep(text: &str) -> bool {
    let mut levels = 0usize;
    let (mut is_quoted, mut is_escaped) = (false, false);
    for byte in text.as_bytes() {
        match *byte {
            _ if is_escaped => is_escaped = false,
            b'\\' => is_escaped = is_quoted,
            b'"' => is_quoted = !is_quoted,
            b'[' | b'{' if !is_quoted => levels = levels.saturating_add(1),
            b']' | b'}' if !is_quoted => levels = levels.saturating_sub(1),
            _ => {}
        }
        if levels > MOST_LEVELS {
            return true;
        }
    }
    false
}

/// Whether a text has an escape of a surrogate. JSON lets half of a pair stand alone (RFC 8259, section 8.2), and `serde_json` does not.
fn has_surrogate(text: &str) -> bool {
    text.as_bytes().windows(4).any(|it| {
        matches!(
            it,
            [b'\\', b'u', b'd' | b'D', b'8'..=b'9' | b'a'..=b'f' | b'A'..=b'F']
        )
    })
}

// The changes of one notification, and what is said of them.
ghost use Rattle.std.specs.Prelude.{◌≡◌};
ghost use Rattle.lsp_documents.specs.Notices.{has_whole as has_whole_text, since_whole as since_whole_text, is_not_higher as is_below, change_remark as remark_of_change};

use crate::fault::SyncWarning;
use lsp_text::ContentChange;

/// Returns whether one of the changes is a whole text.
pub fn has_whole(changes: &[ContentChange]) -> bool
    ensures { result ≡ has_whole_text changes.now }
{
    changes.iter().any(|change| change.range.is_none())
}

/// Returns the changes that decide: those from the last whole text on, or all if there is none.
pub fn since_whole(changes: &[ContentChange]) -> &[ContentChange]
    ensures { result.now ≡ since_whole_text changes.now }
{
    let mut from = 0;
    for (index, change) in changes.iter().enumerate() {
        if change.range.is_none() {
            from = index;
        }
    }
    &changes[from..]
}

/// Returns whether a version equals the one before, or is below it.
pub fn is_not_higher(version: Option<i32>, before: Option<i32>) -> bool
    ensures { result ≡ is_below version before }
{
    match (version, before) {
        (Some(version), Some(before)) => version <= before,
        _ => false,
    }
}

/// Returns the warning about changes that were applied, from three facts: whether a position is past an end, what is
/// doubtful, and whether the version is not higher. The first that applies decides.
pub fn change_remark(
    past: bool,
    doubt: Option<SyncWarning>,
    not_higher: bool,
) -> Option<SyncWarning>
    ensures { result ≡ remark_of_change past doubt not_higher }
{
    if past {
        Some(SyncWarning::PastEnd)
    } else if doubt.is_some() {
        doubt
    } else if not_higher {
        Some(SyncWarning::VersionNotHigher)
    } else {
        None
    }
}

//! The change from one result of semantic tokens to a later one.
ghost use Rattle.std.specs.Prelude.{◌≡◌, ◌≤◌, ◌-◌, ◌^◌, [], length, take, drop, IfOk, MatchOption};
ghost use Rattle.lsp_types_features.specs.TokenEdits.{edited_by};

use crate::token_changes::{SemanticTokensDelta, SemanticTokensEdit};
use std::alloc::{AllocError, Global};

impl SemanticTokensDelta {
    ghost use Rattle.std.specs.Prelude.{◌≡◌, ◌≤◌, ◌^◌, [], length, None, IfOk, IfSome, MatchOption};
    ghost use Rattle.lsp_types_features.specs.TokenEdits.{edited};

    /// Makes the change from the numbers of an earlier result to those of a later one (LSP 3.17, "Semantic Tokens"). It
    /// has no edit if they are the same. Otherwise it has one edit, which spares the numbers that both begin with, and
    /// the numbers that both end with.
    ///
    /// `None` means that the earlier result has more than 4,294,967,295 numbers, so that an edit can't name each. `Err`
    /// means that an allocation failed.
    pub fn between(
        alloc: Global,
        before: &[u32],
        after: &[u32],
    ) -> Result<Option<SemanticTokensDelta>, AllocError>
        ensures edits { IfOk result (λ found. MatchOption found (2 ^ 32 ≤ length before.now)
            (λ delta. edited delta.edits.items before.now ≡ after.now)) }
        ensures same { IfOk result (λ found. IfSome found (λ delta.
            before.now ≡ after.now → delta.edits.items ≡ [])) }
        ensures result_id { IfOk result (λ found. IfSome found (λ delta. delta.result_id ≡ None)) }
    {
        if before == after {
            return Ok(Some(SemanticTokensDelta::new(Vec::new(alloc))));
        }
        match edit_between(alloc, before, after)? {
            Some(edit) => Ok(Some(SemanticTokensDelta::new(vec![in alloc; edit]?))),
            None => Ok(None),
        }
    }
}

/// Makes one edit from earlier numbers to later ones. `None` means that it can't name each of the earlier numbers.
fn edit_between(
    alloc: Global,
    before: &[u32],
    after: &[u32],
) -> Result<Option<SemanticTokensEdit>, AllocError>
    ensures { IfOk result (λ found. MatchOption found (2 ^ 32 ≤ length before.now)
        (λ edit. edited_by edit before.now ≡ after.now)) }
{
    if before.len() > u32::MAX as usize {
        return Ok(None);
    }
    let start = common_start(before, after);
    let end = common_end(&before[start..], &after[start..]);
    let data = some_of(alloc, &after[start..after.len() - end])?;
    Ok(Some(SemanticTokensEdit {
        start: start as u32,
        delete_count: (before.len() - end - start) as u32,
        data,
    }))
}

/// Copies numbers. `None` means that there are none.
fn some_of(alloc: Global, numbers: &[u32]) -> Result<Option<Vec<u32>>, AllocError>
    ensures { IfOk result (λ found. MatchOption found (numbers.now ≡ [])
        (λ copy. copy.items ≡ numbers.now)) }
{
    if numbers.is_empty() {
        return Ok(None);
    }
    let mut data = Vec::new(alloc);
    data.extend_from_slice(numbers)?;
    Ok(Some(data))
}

/// Returns how many numbers both begin with.
fn common_start(before: &[u32], after: &[u32]) -> usize
    ensures before { result ≤ length before.now }
    ensures after { result ≤ length after.now }
    ensures same { take result before.now ≡ take result after.now }
{
    let most = before.len().min(after.len());
    for i in 0..most {
        if before[i] != after[i] {
            return i;
        }
    }
    most
}

/// Returns how many numbers both end with.
fn common_end(before: &[u32], after: &[u32]) -> usize
    ensures before { result ≤ length before.now }
    ensures after { result ≤ length after.now }
    ensures same { drop (length before.now - result) before.now
        ≡ drop (length after.now - result) after.now }
{
    let most = before.len().min(after.len());
    for i in 0..most {
        if before[before.len() - 1 - i] != after[after.len() - 1 - i] {
            return i;
        }
    }
    most
}

// What params and results are read as.
ghost use Rattle.std.specs.Prelude.{IfOk};
ghost use Rattle.serde_json.specs.View.{view};
ghost use Rattle.lsp_json.specs.JsonRef.{json_data};
ghost use Rattle.lsp_methods.specs.Reads.{IsReadOf};

use lsp_json::JsonRef;
use lsp_message::{ErrorCode, ResponseError};
use lsp_types::FromJson;
use lsp_types::json::Misfit;
use serde_json::Value;
use std::alloc::{AllocError, Global};

/// Reads a tree as a type of LSP. A tree that does not fit gives the error -32602 to reply with. Its text names the
/// member that does not fit, and what was expected there (JSON-RPC 2.0, section 5.1).
///
/// `Err(AllocError)` means that an allocation failed.
pub fn from_value<T: FromJson>(
    alloc: Global,
    value: &Value,
) -> Result<Result<T, ResponseError>, AllocError>
    ensures { IfOk result (λ read. IsReadOf T.reads (view value.now) read) }
{
    from_json(alloc, &JsonRef::of_tree(value))
}

/// Reads JSON as a type of LSP, wherever the JSON stands. JSON that does not fit gives the error that `from_value`
/// gives for a tree.
///
/// `Err(AllocError)` means that an allocation failed.
pub fn from_json<T: FromJson>(
    alloc: Global,
    json: &JsonRef<'_>,
) -> Result<Result<T, ResponseError>, AllocError>
    ensures { IfOk result (λ read. IsReadOf T.reads (json_data json.now) read) }
{
    match T::from_json(alloc, json) {
        Ok(it) => Ok(Ok(it)),
        Err(Misfit::Memory) => Err(AllocError),
        Err(misfit) => {
            let reason = format!(in alloc; "{misfit}")?;
            Ok(Err(ResponseError::new(alloc, ErrorCode::InvalidParams, reason.as_str())?))
        }
    }
}

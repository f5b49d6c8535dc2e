// The requests that have no reply yet (JSON-RPC 2.0, section 5).
ghost use Rattle.std.specs.Prelude.{◌≡◌, [], IfOk, option_map, unwrap_or};
ghost use Rattle.serde_json.specs.Data.{null};
ghost use Rattle.serde_json.specs.View.{view};
ghost use Rattle.lsp_watch.specs.Entries.{method_in, params_in};
ghost use Rattle.lsp_watch.specs.Keys.{key_in as key_in_data};
ghost use Rattle.lsp_watch.specs.Log.{is_for as is_for_it, opens_session, created_name as created_name_of, request_of};

use crate::direction::Direction;
use crate::logged::{Entry, LoggedId};
use serde_json::Value;
use std::alloc::{AllocError, Global};
use std::marker::Model;

/// A request that has no reply yet.
#[derive(Debug, Drop)]
pub struct Asked {
    /// The direction in which it went.
    pub direction: Direction,
    /// The place of the message.
    pub place: u64,
    /// Its id.
    pub id: LoggedId,
    /// Its method.
    pub method: String,
    /// Its `workDoneToken`.
    pub work: Option<LoggedId>,
    /// Its `partialResultToken`.
    pub part: Option<LoggedId>,
    /// The token that it creates, if it is a server's `window/workDoneProgress/create`.
    pub created: Option<LoggedId>,
}

impl Model for Asked {
    ghost use Rattle.std.specs.Prelude.{string_bytes};
    ghost use Rattle.lsp_watch.specs.Log.{Open};

    ghost Value = { Open };

    ghost view = { λ a. record { direction = a.direction; place = a.place; id = a.id; method = string_bytes a.method; work = a.work; part = a.part; created = a.created } };
}

impl Asked {
    /// Whether a reply under this id, to a request of this direction, may answer it.
    pub fn is_for(&self, direction: Direction, id: &LoggedId) -> bool
        ensures { result ≡ is_for_it direction id.now self.now }
    {
        direction == self.direction && id.is(&self.id)
    }

    /// Whether it is the client's `initialize`.
    pub fn opens_session(&self) -> bool
        ensures { result ≡ opens_session self.now }
    {
        self.direction.is_from_client() && self.method.as_str() == "initialize"
    }
}

/// What is kept of a request.
pub fn kept_of(
    alloc: Global,
    direction: Direction,
    place: u64,
    id: &LoggedId,
    message: &Entry,
) -> Result<Asked, AllocError>
    ensures { IfOk result (λ a. a ≡ request_of direction place id.now (unwrap_or (method_in (view message.now.tree)) [])
        (params_in (view message.now.tree))) }
{
    let params = message.tree().get("params");
    let method = String::from_str(alloc, message.method())?;
    let id = id.clone()?;
    let work = key_in(params, "workDoneToken")?;
    let part = key_in(params, "partialResultToken")?;
    let created = created_by(direction, message.method(), params)?;
    Ok(Asked {
        direction,
        place,
        id,
        method,
        work,
        part,
        created,
    })
}

/// The token under which a server asks the client to show progress.
fn created_by(
    direction: Direction,
    method: &str,
    params: Option<&Value>,
) -> Result<Option<LoggedId>, AllocError>
    ensures { IfOk result (λ name. name ≡ created_name_of direction method.now (unwrap_or (option_map (λ v. view v.now) params.entry) null)) }
{
    if direction.is_from_client() || method != "window/workDoneProgress/create" {
        return Ok(None);
    }
    key_in(params, "token")
}

/// The id or token that a member of params is.
pub fn key_in(params: Option<&Value>, name: &str) -> Result<Option<LoggedId>, AllocError>
    ensures { IfOk result (λ key. key ≡ key_in_data name.now (unwrap_or (option_map (λ v. view v.now) params.entry) null)) }
{
    let Some(params) = params else {
        return Ok(None);
    };
    match params.get(name) {
        Some(value) => LoggedId::from_value(value),
        None => Ok(None),
    }
}

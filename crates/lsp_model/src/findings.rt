// Whether the params or the result of a message fit the type of its method.
ghost use Rattle.std.specs.Prelude.{◌≡◌, option_map, unwrap_or};
ghost use Rattle.serde_json.specs.Data.{null, object, no_members};
ghost use Rattle.serde_json.specs.View.{view};
ghost use Rattle.lsp_watch.specs.Entries.{entry_view};
ghost use Rattle.lsp_watch.specs.Log.{Log};
ghost use Rattle.lsp_watch.specs.Saw.{Saw};
ghost use Rattle.lsp_model.specs.Findings.{fits_in as fits_model, is_unfit as is_unfit_value, is_unfit_message, unfit_call, unfit_reply};

use crate::fitting::fits;
use crate::mode::Mode;
use crate::model::Model;
use lsp_watch::{Asked, Direction, Entry, Kind, Watch};
use serde_json::{Map, Value};
use std::alloc::Global;

/// How deep a value is judged. No content nests so deep.
const LEVELS: u32 = 1000;

impl Model {
    /// Returns whether the params or the result of a message would be unfit in a mode if the message passed now. The watch saw the messages
    /// before it.
    ///
    /// Params that are missing count as an object without members. Params that are a list are not judged, and neither is a method that
    /// the model does not have, or one that goes in the other direction.
    pub fn is_unfit(
        &self,
        alloc: Global,
        mode: Mode,
        watch: &Watch,
        direction: Direction,
        message: &Entry,
    ) -> bool
        ensures { (log : Log) → Saw watch.now log
            → result ≡ is_unfit_message self.now mode log direction (entry_view message.now) (view message.now.tree) }
    {
        match message.kind() {
            Kind::Request(_) | Kind::Notification => {
                self.is_unfit_call(alloc, mode, direction, message.method(), message.params())
            }
            Kind::Reply(id, succeeds) => match watch.waiting(direction.other(), id) {
                Some(asked) => {
                    self.is_unfit_reply(mode, direction.other(), *succeeds, message.tree(), asked)
                }
                None => false,
            },
        }
    }

    fn is_unfit_call(
        &self,
        alloc: Global,
        mode: Mode,
        direction: Direction,
        name: &str,
        params: Option<&Value>,
    ) -> bool
        ensures { result ≡ unfit_call self.now mode direction name.now
            (unwrap_or (option_map (λ v. view v.now) params.entry) null) }
    {
        let Some(method) = self.method(direction, name) else {
            return false;
        };
        match params {
            None | Some(Value::Null) => self.is_empty_unfit(alloc, mode, method.params),
            Some(params) => params.is_object() && self.is_unfit_value(mode, method.params, params),
        }
    }

    fn is_unfit_reply(
        &self,
        mode: Mode,
        direction: Direction,
        succeeds: bool,
        reply: &Value,
        asked: &Asked,
    ) -> bool
        ensures { result ≡ unfit_reply self.now mode direction succeeds (view reply.now) asked.now }
    {
        if !succeeds {
            return false;
        }
        let Some(method) = self.method(direction, asked.method.as_str()) else {
            return false;
        };
        match reply.get("result") {
            Some(result) => self.is_unfit_value(mode, method.result, result),
            None => self.is_unfit_value(mode, method.result, &Value::Null),
        }
    }

    /// Returns whether an object without members is unfit.
    fn is_empty_unfit(&self, alloc: Global, mode: Mode, at: usize) -> bool
        ensures { result ≡ is_unfit_value self.now mode at (object no_members) }
    {
        let empty = nothing(alloc);
        let is_unfit = self.is_unfit_value(mode, at, &empty);
        drop(empty);
        is_unfit
    }

    /// Returns whether a value is unfit. One that has another type is unfit in the loose mode alone.
    fn is_unfit_value(&self, mode: Mode, at: usize, value: &Value) -> bool
        ensures { result ≡ is_unfit_value self.now mode at (view value.now) }
    {
        let has_type = self.fits(Mode::Loose, at, value);
        match mode {
            Mode::Loose => !has_type,
            _ => has_type && !self.fits(mode, at, value),
        }
    }

    /// Returns whether a value fits the type at this place.
    pub fn fits(&self, mode: Mode, at: usize, value: &Value) -> bool
        ensures { result ≡ fits_model self.now mode at (view value.now) }
    {
        fits(self.types.as_slice(), mode, LEVELS, at, value)
    }
}

/// Returns an object without members.
pub fn nothing(alloc: Global) -> Value
    ensures { view result ≡ object no_members }
{
    Value::Object(Map::new(alloc))
}

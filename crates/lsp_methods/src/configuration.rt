// What the user set for a server.
ghost use Rattle.std.specs.Prelude.{◌≡◌, ◌≢◌, ◌∷◌, [], List, true, false, None, Ok, IfOk, IfSome, MatchOption, OnErr, is_some};
ghost use Rattle.serde_json.specs.Find.{get};
ghost use Rattle.serde_json.specs.View.{view};
ghost use Rattle.lsp_methods.specs.Configuring.{asks_for, replied_of, settings_of};
ghost use Rattle.serde_json.specs.declared.value.Value.{Value};
ghost use Rattle.lsp_acts.specs.View.{act_view};

use crate::sending::{read_result, send_request};
use lsp_acts::Act;
use lsp_message::{ResponseError, read_as};
use lsp_types::methods::ConfigurationRequest;
use lsp_types::{ConfigurationParams, DidChangeConfigurationParams};
use serde::DeserializeOwned;
use serde_json::Value;
use std::alloc::{AllocError, Global};

/// A section of the client's configuration, read as a type of your own (LSP 3.17, "Configuration Request").
///
/// In `initialize` call `read_capabilities`, in `initialized` call `send_request`, and at each `workspace/didChangeConfiguration` call
/// `change`. Pass the replies to `take_reply`.
#[derive(Drop)]
pub struct Configuration<T: Drop> {
    /// The name of the section, usually that of your server.
    pub section: &'static str,
    /// Whether the client can be asked.
    pub is_asked: bool,
    /// The value that the user set last, or your initial value.
    pub value: T,
}

impl<T: DeserializeOwned + Drop> Configuration<T> {
    ghost use Rattle.lsp_methods.specs.Configuring.{can_be_asked};

    /// Makes a section with the value that holds until the user sets one. Before `read_capabilities`, the client is not asked.
    pub fn new(section: &'static str, value: T) -> Configuration<T>
        ensures section { result.«section».now ≡ «section».now }
        ensures is_asked { result.is_asked ≡ false }
        ensures value { result.«value» ≡ «value» }
    {
        Configuration {
            section,
            is_asked: false,
            value,
        }
    }

    /// Reads from the client's capabilities whether it can be asked: `workspace.configuration` is true.
    pub fn read_capabilities(&mut self, client: &Value)
        ensures { self.new ≡ record self.old { is_asked = can_be_asked (view client.now) } }
    {
        self.is_asked = match client.pointer("/workspace/configuration") {
            Some(can) => can.as_bool() == Some(true),
            None => false,
        };
    }

    /// Makes the request for the section, if the client can be asked. `payload` is returned with the reply.
    ///
    /// `Err` means that an allocation failed.
    pub fn send_request<P: Drop + PartialEq>(
        &self,
        alloc: Global,
        payload: P,
    ) -> Result<Option<Act<P>>, AllocError>
        ensures asked { IfOk result (λ asked. is_some asked ≡ self.now.is_asked) }
        ensures act { IfOk result (λ asked. IfSome asked (λ act.
            act_view P.eq act ≡ asks_for self.now.«section».now «payload»)) }
    {
        if !self.is_asked {
            drop(payload);
            return Ok(None);
        }
        let params = match ConfigurationParams::section(alloc, self.section) {
            Ok(params) => params,
            Err(failed) => {
                drop(payload);
                return Err(failed);
            }
        };
        let asked = send_request::<ConfigurationRequest, P>(alloc, &params, payload);
        drop(params);
        match asked {
            Ok(act) => Ok(Some(act)),
            Err(failed) => Err(failed),
        }
    }

    /// Takes the reply, and returns whether its first value fits. The result has a value for each requested section, in
    /// order (LSP 3.17, "Configuration Request"), and `send_request` requests one. If it does not fit, `value` stays: the client
    /// may reply with an error, or with null if the user set nothing.
    ///
    /// `Err` means that an allocation failed, and `value` stays too.
    pub fn take_reply(
        &mut self,
        alloc: Global,
        outcome: Result<Value, ResponseError>,
    ) -> Result<bool, AllocError>
        ensures others { (self.new.section ≡ self.old.section) × (self.new.is_asked ≡ self.old.is_asked) }
        ensures kept { result ≢ Ok true → self.new.«value» ≡ self.old.«value» }
        ensures missing { IfOk outcome (λ reply. replied_of (view reply) ≡ None → self.new ≡ self.old) }
    {
        match read_result::<ConfigurationRequest>(alloc, outcome)? {
            Ok(values) => {
                let value = first(values);
                self.take(alloc, value)
            }
            Err(error) => {
                drop(error);
                Ok(false)
            }
        }
    }

    /// Takes the settings in a notification, for a client that can't be asked: an object with a member of the section's
    /// name. It returns whether there is such a member that fits. Otherwise `value` stays.
    ///
    /// `Err` means that an allocation failed, and `value` stays too.
    pub fn take_settings(
        &mut self,
        alloc: Global,
        params: &DidChangeConfigurationParams,
    ) -> Result<bool, AllocError>
        ensures others { (self.new.section ≡ self.old.section) × (self.new.is_asked ≡ self.old.is_asked) }
        ensures kept { result ≢ Ok true → self.new.«value» ≡ self.old.«value» }
        ensures missing { get self.old.«section».now (view params.now.settings) ≡ None → self.new ≡ self.old }
    {
        self.take_from(alloc, &params.settings)
    }

    /// Handles `workspace/didChangeConfiguration`, which has these params. It makes a new request if the client can be
    /// asked, as `send_request` does. Otherwise it takes the settings in the params, as `take_settings` does. `payload` is
    /// returned with the reply.
    ///
    /// `Err` means that an allocation failed, and `value` stays.
    pub fn change<P: Drop + PartialEq>(
        &mut self,
        alloc: Global,
        params: &Value,
        payload: P,
    ) -> Result<Option<Act<P>>, AllocError>
        ensures others { (self.new.section ≡ self.old.section) × (self.new.is_asked ≡ self.old.is_asked) }
        ensures kept { self.old.is_asked ≡ true → self.new ≡ self.old }
        ensures missing { settings_of self.old.«section».now (view params.now) ≡ None → self.new ≡ self.old }
        ensures stays { OnErr result (self.new.«value» ≡ self.old.«value») }
        ensures asked { IfOk result (λ asked. is_some asked ≡ self.old.is_asked) }
        ensures act { IfOk result (λ asked. IfSome asked (λ act.
            act_view P.eq act ≡ asks_for self.old.«section».now «payload»)) }
    {
        if self.is_asked {
            return self.send_request(alloc, payload);
        }
        drop(payload);
        if let Some(settings) = params.get("settings") {
            self.take_from(alloc, settings)?;
        }
        Ok(None)
    }

    /// Takes the member of the section's name, if there is one and it fits.
    fn take_from(&mut self, alloc: Global, settings: &Value) -> Result<bool, AllocError>
        ensures others { (self.new.section ≡ self.old.section) × (self.new.is_asked ≡ self.old.is_asked) }
        ensures kept { result ≢ Ok true → self.new.«value» ≡ self.old.«value» }
        ensures missing { get self.old.«section».now (view settings.now) ≡ None → self.new ≡ self.old }
    {
        match settings.get(self.section) {
            Some(found) => {
                let value = found.clone()?;
                self.take(alloc, Some(value))
            }
            None => Ok(false),
        }
    }

    /// Takes a value, if there is one and it fits.
    fn take(&mut self, alloc: Global, value: Option<Value>) -> Result<bool, AllocError>
        ensures others { (self.new.section ≡ self.old.section) × (self.new.is_asked ≡ self.old.is_asked) }
        ensures kept { result ≢ Ok true → self.new.«value» ≡ self.old.«value» }
        ensures none { value ≡ None → self.new ≡ self.old }
    {
        let Some(value) = value else {
            return Ok(false);
        };
        match read_as(alloc, value)? {
            Ok(value) => {
                self.value = value;
                Ok(true)
            }
            Err(error) => {
                drop(error);
                Ok(false)
            }
        }
    }
}

/// Returns the first of the values in a client's reply.
fn first(values: Vec<Value>) -> Option<Value>
    ensures { MatchOption result (values.items ≡ [])
        (λ value. (rest : List Value) × (values.items ≡ value ∷ rest)) }
{
    values.into_iter().next()
}

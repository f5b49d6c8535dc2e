// What a server registers (LSP 3.17, "Register Capability" and "Unregister Capability").
ghost use Rattle.std.specs.Prelude.{◌≡◌, ◌∷◌, ◌||◌, ◌&&◌, [], ℕ, Bool, true, not, OnOk, IfOk, option_map, unwrap_or};
ghost use Rattle.serde_json.specs.Data.{Data, null};
ghost use Rattle.serde_json.specs.View.{view, items_view};
ghost use Rattle.lsp_watch.specs.Documents.{params_in, is_text, text_in as text_of};
ghost use Rattle.lsp_watch.specs.Entries.{entry_view};
ghost use Rattle.lsp_watch.specs.Log.{Log, passed, from_client, is_some_such, asks as is_request, is_success as has_result};
ghost use Rattle.lsp_watch.specs.Saw.{Saw};
ghost use Rattle.lsp_capabilities.specs.Knows.{Holds, any_placed, is_ended as has_ended};
ghost use Rattle.lsp_capabilities.specs.Registrations.{any_item, registers_method as registers_it, registers_command as registers_the_command, has_option as has_the_option, is_of as is_end_of, is_registration, is_unregistration, registrations_in, unregistrations_in, is_place as is_at_place, replied_at as is_replied_at};

use crate::methods::{registered_as, registered_option};
use crate::params::{has_text, is_offered, items_in, lists, text_in};
use lsp_watch::{Direction, Entry, Kind, Watch};
use serde_json::Value;
use std::alloc::{AllocError, Global};

/// A part of the params of a request of the server, and the place of the request.
#[derive(Debug, Drop)]
pub struct Placed {
    place: u64,
    value: Value,
}

/// The registrations that are in force. Each is so from the request that asks for it on, until the client refuses it or confirms that it
/// ends.
#[derive(Debug, Drop)]
pub struct Registrations {
    registered: Vec<Placed>,
    /// The params of the requests to end registrations that the client did not confirm.
    unconfirmed: Vec<Placed>,
}

impl Registrations {
    /// Begins with a session of which nothing has passed. It does not allocate.
    pub fn new(alloc: Global) -> Registrations
        ensures { Holds result [] }
    {
        Registrations {
            registered: Vec::new(alloc),
            unconfirmed: Vec::new(alloc),
        }
    }

    /// Returns whether a registration of the requests of a method is in force.
    pub fn has_method(&self, method: &str) -> bool
        ensures { result ≡ any_placed (λ place r. registers_it method.now r) self.now.registered.items }
    {
        self.registered
            .iter()
            .any(|it| registers_method(&it.value, method))
    }

    /// Returns whether a registration of a command is in force.
    pub fn has_command(&self, command: &str) -> bool
        ensures { result ≡ any_placed (λ place r. registers_the_command command.now r) self.now.registered.items }
    {
        self.registered
            .iter()
            .any(|it| registers_command(&it.value, command))
    }

    /// Returns whether the client confirmed each end of a registration that the server asked for.
    #[tactic(auto, using(crate::proofs::Items::any_at_all))]
    pub fn is_certain(&self) -> bool
        ensures { result ≡ not (any_placed (λ place params. true) self.now.unconfirmed.items) }
    {
        self.unconfirmed.is_empty()
    }

    /// Keeps what a message registers, and what it ends. The watch saw the messages before it.
    ///
    /// The error means that an allocation failed. Do not use the value after that: it may be incomplete.
    pub fn keep(
        &mut self,
        place: u64,
        watch: &Watch,
        direction: Direction,
        message: &Entry,
    ) -> Result<(), AllocError>
        ensures { (log : Log) → Saw watch.now log → Holds self.old log
            → OnOk result (Holds self.new (passed direction place (entry_view message.now) ∷ log)) }
    {
        self.settle(replied_at(watch, direction, message), is_success(message));
        self.ask(place, direction, message)?;
        Ok(())
    }

    /// Keeps that the client replied to the request at this place, with a result or with an error.
    fn settle(&mut self, at: Option<u64>, succeeds: bool)
        ensures registered { (such : ℕ → Data → Bool) → any_placed such self.new.registered.items
            ≡ any_placed (λ place r. such place r && not (has_ended self.old.unconfirmed.items at succeeds place r)) self.old.registered.items }
        ensures unconfirmed { (such : ℕ → Data → Bool) → any_placed such self.new.unconfirmed.items
            ≡ any_placed (λ place params. such place params && not (succeeds && is_at_place place at)) self.old.unconfirmed.items }
    {
        if at.is_none() {
            return;
        }
        let unconfirmed = self.unconfirmed.as_slice();
        self.registered
            .retain(|it| !is_ended(it, at, succeeds, unconfirmed));
        self.unconfirmed
            .retain(|it| !(succeeds && is_place(it.place, at)));
    }

    /// Keeps what a request of the server registers, or asks to end.
    fn ask(&mut self, place: u64, direction: Direction, message: &Entry) -> Result<(), AllocError>
        ensures registered { OnOk result ((such : ℕ → Data → Bool) → any_placed such self.new.registered.items
            ≡ (any_placed such self.old.registered.items || (is_registration direction (entry_view message.now)
            && any_item (such place) (registrations_in (params_in (entry_view message.now)))))) }
        ensures unconfirmed { OnOk result ((such : ℕ → Data → Bool) → any_placed such self.new.unconfirmed.items
            ≡ (any_placed such self.old.unconfirmed.items || (is_unregistration direction (entry_view message.now)
            && such place (params_in (entry_view message.now))))) }
    {
        if asks(direction, message, "client/registerCapability") {
            let registrations = items_in(message.params().and_then(|it| it.get("registrations")));
            return add_all(&mut self.registered, place, registrations);
        }
        if asks(direction, message, "client/unregisterCapability") {
            let value = copy(message.params())?;
            self.unconfirmed.push(Placed { place, value })?;
        }
        Ok(())
    }
}

fn add_all(
    registered: &mut Vec<Placed>,
    place: u64,
    registrations: &[Value],
) -> Result<(), AllocError>
    ensures { OnOk result ((such : ℕ → Data → Bool) → any_placed such registered.new.items
        ≡ (any_placed such registered.old.items || any_item (such place) (items_view registrations.now))) }
{
    for registration in registrations {
        let value = registration.clone()?;
        registered.push(Placed { place, value })?;
    }
    Ok(())
}

fn copy(params: Option<&Value>) -> Result<Value, AllocError>
    ensures { IfOk result (λ d. view d ≡ unwrap_or (option_map (λ v. view v.now) params.entry) null) }
{
    match params {
        Some(params) => params.clone(),
        None => Ok(Value::Null),
    }
}

/// Returns whether the server sends a request of this method.
fn asks(direction: Direction, message: &Entry, method: &str) -> bool
    ensures { result ≡ (not (from_client direction) && is_request method.now (entry_view message.now)) }
{
    match (direction, message.kind()) {
        (Direction::ToClient, Kind::Request(_)) => message.method() == method,
        _ => false,
    }
}

fn is_success(message: &Entry) -> bool
    ensures { result ≡ has_result (entry_view message.now) }
{
    match message.kind() {
        Kind::Reply(_, succeeds) => *succeeds,
        Kind::Request(_) | Kind::Notification => false,
    }
}

/// Returns the place of the request of the server that the client replies to.
fn replied_at(watch: &Watch, direction: Direction, message: &Entry) -> Option<u64>
    ensures { (log : Log) (place : ℕ) → Saw watch.now log
        → result ≡ is_replied_at log (passed direction place (entry_view message.now)) }
{
    if !direction.is_from_client() {
        return None;
    }
    let Kind::Reply(id, _) = message.kind() else {
        return None;
    };
    let asked = watch.waiting(direction.other(), id)?;
    Some(asked.place)
}

fn is_place(place: u64, at: Option<u64>) -> bool
    ensures { result ≡ is_at_place place at }
{
    match at {
        Some(at) => place == at,
        None => false,
    }
}

/// Returns whether a registration ends by the reply to the request at this place: it is refused, or it is confirmed that it ends.
fn is_ended(it: &Placed, at: Option<u64>, succeeds: bool, unconfirmed: &[Placed]) -> bool
    ensures { result ≡ has_ended unconfirmed.now at succeeds it.now.place (view it.now.value) }
{
    (!succeeds && is_place(it.place, at)) || any_ends(unconfirmed, at, succeeds, &it.value)
}

fn any_ends(unconfirmed: &[Placed], at: Option<u64>, succeeds: bool, registration: &Value) -> bool
    ensures { result ≡ any_placed (λ place params. (succeeds && is_at_place place at)
        && any_item (is_end_of (view registration.now)) (unregistrations_in params)) unconfirmed.now }
{
    unconfirmed.iter().any(|it| succeeds && is_place(it.place, at) && ends(&it.value, registration))
}

/// Returns whether params of `client/unregisterCapability` end a registration. The standard spells their member so.
fn ends(params: &Value, registration: &Value) -> bool
    ensures { result ≡ any_item (is_end_of (view registration.now)) (unregistrations_in (view params.now)) }
{
    any_of(items_in(params.get("unregisterations")), registration)
}

fn any_of(unregistrations: &[Value], registration: &Value) -> bool
    ensures { result ≡ any_item (is_end_of (view registration.now)) (items_view unregistrations.now) }
{
    for unregistration in unregistrations {
        if is_of(registration, unregistration) {
            return true;
        }
    }
    false
}

/// Returns whether an unregistration is that of this registration: it has the same id and the same method.
fn is_of(registration: &Value, unregistration: &Value) -> bool
    ensures { result ≡ is_end_of (view registration.now) (view unregistration.now) }
{
    is_same(registration, unregistration, "id") && is_same(registration, unregistration, "method")
}

/// Returns whether both have this member, which is the same text.
fn is_same(one: &Value, other: &Value, name: &str) -> bool
    ensures { result ≡ is_some_such (λ text. is_text text (text_of name.now (view other.now))) (text_of name.now (view one.now)) }
{
    match text_in(one, name) {
        Some(text) => has_text(other, name, text),
        None => false,
    }
}

/// Returns whether a registration registers the requests of this method.
fn registers_method(registration: &Value, method: &str) -> bool
    ensures { result ≡ registers_it method.now (view registration.now) }
{
    has_text(registration, "method", registered_as(method))
        && has_option(registration, registered_option(method))
}

/// Returns whether the options of a registration have what a request needs.
fn has_option(registration: &Value, path: Option<&str>) -> bool
    ensures { result ≡ has_the_option (option_map (λ s. s.now) path.entry) (view registration.now) }
{
    match path {
        Some(path) => is_offered(registration.pointer(path)),
        None => true,
    }
}

/// Returns whether a registration registers this command.
fn registers_command(registration: &Value, command: &str) -> bool
    ensures { result ≡ registers_the_command command.now (view registration.now) }
{
    has_text(registration, "method", "workspace/executeCommand")
        && lists(registration.pointer("/registerOptions/commands"), command)
}

//! The handshake.
// `tools/types` wrote this file from `types.txt`: change that.
ghost use Rattle.std.specs.Prelude.{◌∷◌, [], Some, codes, option_map};
ghost use Rattle.lsp_types.specs.Json.{object_of};
ghost use Rattle.lsp_types.specs.Reads.{IfFits, IsObject, Optional, Required, ◌and◌};

use crate::capabilities::ServerCapabilities;
use crate::choices::NumberOrString;
use crate::json::{FromJson, Members, Misfit, ToJson, write_member, write_some};
use crate::progress::ProgressToken;
use crate::workspace::WorkspaceFolder;
use lsp_json::JsonRef;
use lsp_json_write::JsonSink;
use serde_json::Value;
use std::alloc::Global;

/// The params of `initialize`, as far as most servers read them (LSP 3.17, "Initialize Request").
#[derive(Drop)]
pub struct InitializeParams {
    /// The client's process. When read, it is `None` if it does not fit.
    pub process_id: Option<i32>,
    /// Who the client is. When read, it is `None` if it does not fit.
    pub client_info: Option<ClientInfo>,
    /// The language of the client's user interface, such as `de-CH`. When read, it is `None` if it does not fit.
    pub locale: Option<String>,
    /// The path of the folder that is open. `root_uri` has replaced it. When read, it is `None` if it does not fit.
    pub root_path: Option<String>,
    /// The folder that is open. `workspace_folders` has replaced it.
    pub root_uri: Option<String>,
    /// The folders that are open. `None` means that the client has no such list, or no folder is open.
    pub workspace_folders: Option<Vec<WorkspaceFolder>>,
    /// What the user set for the server.
    pub initialization_options: Option<Value>,
    /// What the client can do. Read a member by `pointer`.
    pub capabilities: Value,
    /// How much trace the client wants: `off`, `messages` or `verbose`. When read, it is `None` if it does not fit.
    pub trace: Option<String>,
    /// The token to report progress with. `None` means that no progress is requested, or that the token does not fit.
    pub work_done_token: Option<ProgressToken>,
}

impl ToJson for InitializeParams {
    ghost stands = { λ it. object_of (
        (codes "capabilities", Some (⟦<Value as ToJson>⟧.stands it.capabilities))
        ∷ (codes "clientInfo", option_map ⟦<ClientInfo as ToJson>⟧.stands it.client_info)
        ∷ (codes "initializationOptions", option_map ⟦<Value as ToJson>⟧.stands it.initialization_options)
        ∷ (codes "locale", option_map ⟦<String as ToJson>⟧.stands it.locale)
        ∷ (codes "processId", Some (⟦<Option<i32> as ToJson>⟧.stands it.process_id))
        ∷ (codes "rootPath", option_map ⟦<String as ToJson>⟧.stands it.root_path)
        ∷ (codes "rootUri", Some (⟦<Option<String> as ToJson>⟧.stands it.root_uri))
        ∷ (codes "trace", option_map ⟦<String as ToJson>⟧.stands it.trace)
        ∷ (codes "workDoneToken", option_map ⟦<ProgressToken as ToJson>⟧.stands it.work_done_token)
        ∷ (codes "workspaceFolders", option_map ⟦<Vec<WorkspaceFolder> as ToJson>⟧.stands it.workspace_folders) ∷ []) };

    fn write_json<S: JsonSink>(&self, out: &mut S) -> Result<(), S::Error> {
        out.begin_object()?;
        write_member(out, "capabilities", &self.capabilities)?;
        write_some(out, "clientInfo", &self.client_info)?;
        write_some(out, "initializationOptions", &self.initialization_options)?;
        write_some(out, "locale", &self.locale)?;
        write_member(out, "processId", &self.process_id)?;
        write_some(out, "rootPath", &self.root_path)?;
        write_member(out, "rootUri", &self.root_uri)?;
        write_some(out, "trace", &self.trace)?;
        write_some(out, "workDoneToken", &self.work_done_token)?;
        write_some(out, "workspaceFolders", &self.workspace_folders)?;
        out.end_object()
    }
}

impl FromJson for InitializeParams {
    ghost reads = { λ json it. IsObject json
        and IfFits ⟦<i32 as FromJson>⟧.reads (codes "processId") json it.process_id
        and IfFits ⟦<ClientInfo as FromJson>⟧.reads (codes "clientInfo") json it.client_info
        and IfFits ⟦<String as FromJson>⟧.reads (codes "locale") json it.locale
        and IfFits ⟦<String as FromJson>⟧.reads (codes "rootPath") json it.root_path
        and Optional ⟦<String as FromJson>⟧.reads (codes "rootUri") json it.root_uri
        and Optional ⟦<Vec<WorkspaceFolder> as FromJson>⟧.reads (codes "workspaceFolders") json it.workspace_folders
        and Optional ⟦<Value as FromJson>⟧.reads (codes "initializationOptions") json it.initialization_options
        and Required ⟦<Value as FromJson>⟧.reads (codes "capabilities") json it.capabilities
        and IfFits ⟦<String as FromJson>⟧.reads (codes "trace") json it.trace
        and IfFits ⟦<ProgressToken as FromJson>⟧.reads (codes "workDoneToken") json it.work_done_token };

    fn from_json(alloc: Global, value: &JsonRef<'_>) -> Result<InitializeParams, Misfit> {
        match Members::new(alloc, value)
            .if_fits("processId")
            .if_fits("clientInfo")
            .if_fits("locale")
            .if_fits("rootPath")
            .optional("rootUri")
            .optional("workspaceFolders")
            .optional("initializationOptions")
            .required("capabilities")
            .if_fits("trace")
            .if_fits("workDoneToken")
            .end()
        {
            Ok(read) => {
                let (read, work_done_token) = read;
                let (read, trace) = read;
                let (read, capabilities) = read;
                let (read, initialization_options) = read;
                let (read, workspace_folders) = read;
                let (read, root_uri) = read;
                let (read, root_path) = read;
                let (read, locale) = read;
                let (read, client_info) = read;
                let ((), process_id) = read;
                Ok(InitializeParams {
                    process_id,
                    client_info,
                    locale,
                    root_path,
                    root_uri,
                    workspace_folders,
                    initialization_options,
                    capabilities,
                    trace,
                    work_done_token,
                })
            }
            Err(misfit) => Err(misfit),
        }
    }
}

/// A name and a version: the server's, or the client's (LSP 3.17, "Initialize Request").
#[derive(Drop)]
pub struct ServerInfo {
    /// Its name.
    pub name: String,
    /// Its version.
    pub version: Option<String>,
}

impl ServerInfo {
    ghost use Rattle.std.specs.Prelude.{◌≡◌, None};

    /// Makes one from the required members. The others are `None`.
    pub fn new(name: String) -> ServerInfo
        ensures { result ≡ record {
          name = name;
          version = None;
        } }
    {
        ServerInfo {
            name,
            version: None,
        }
    }
}

impl ToJson for ServerInfo {
    ghost stands = { λ it. object_of (
        (codes "name", Some (⟦<String as ToJson>⟧.stands it.name))
        ∷ (codes "version", option_map ⟦<String as ToJson>⟧.stands it.version) ∷ []) };

    fn write_json<S: JsonSink>(&self, out: &mut S) -> Result<(), S::Error> {
        out.begin_object()?;
        write_member(out, "name", &self.name)?;
        write_some(out, "version", &self.version)?;
        out.end_object()
    }
}

impl FromJson for ServerInfo {
    ghost reads = { λ json it. IsObject json
        and Required ⟦<String as FromJson>⟧.reads (codes "name") json it.name
        and Optional ⟦<String as FromJson>⟧.reads (codes "version") json it.version };

    fn from_json(alloc: Global, value: &JsonRef<'_>) -> Result<ServerInfo, Misfit> {
        match Members::new(alloc, value)
            .required("name")
            .optional("version")
            .end()
        {
            Ok(read) => {
                let (((), name), version) = read;
                Ok(ServerInfo { name, version })
            }
            Err(misfit) => Err(misfit),
        }
    }
}

/// The client's name and version (LSP 3.17, "Initialize Request").
pub type ClientInfo = ServerInfo;

/// The result of `initialize` (LSP 3.17, "Initialize Request").
#[derive(Drop)]
pub struct InitializeResult {
    /// What the server can do.
    pub capabilities: ServerCapabilities,
    /// Who it is.
    pub server_info: Option<ServerInfo>,
}

impl ToJson for InitializeResult {
    ghost stands = { λ it. object_of (
        (codes "capabilities", Some (⟦<ServerCapabilities as ToJson>⟧.stands it.capabilities))
        ∷ (codes "serverInfo", option_map ⟦<ServerInfo as ToJson>⟧.stands it.server_info) ∷ []) };

    fn write_json<S: JsonSink>(&self, out: &mut S) -> Result<(), S::Error> {
        out.begin_object()?;
        write_member(out, "capabilities", &self.capabilities)?;
        write_some(out, "serverInfo", &self.server_info)?;
        out.end_object()
    }
}

impl FromJson for InitializeResult {
    ghost reads = { λ json it. IsObject json
        and Required ⟦<ServerCapabilities as FromJson>⟧.reads (codes "capabilities") json it.capabilities
        and Optional ⟦<ServerInfo as FromJson>⟧.reads (codes "serverInfo") json it.server_info };

    fn from_json(alloc: Global, value: &JsonRef<'_>) -> Result<InitializeResult, Misfit> {
        match Members::new(alloc, value)
            .required("capabilities")
            .optional("serverInfo")
            .end()
        {
            Ok(read) => {
                let (((), capabilities), server_info) = read;
                Ok(InitializeResult {
                    capabilities,
                    server_info,
                })
            }
            Err(misfit) => Err(misfit),
        }
    }
}

/// The params of `$/setTrace` (LSP 3.17, "SetTrace").
#[derive(Drop)]
pub struct SetTraceParams {
    /// How much trace the client wants: `off`, `messages` or `verbose`.
    pub value: String,
}

impl ToJson for SetTraceParams {
    ghost stands = { λ it. object_of (
        (codes "value", Some (⟦<String as ToJson>⟧.stands it.value)) ∷ []) };

    fn write_json<S: JsonSink>(&self, out: &mut S) -> Result<(), S::Error> {
        out.begin_object()?;
        write_member(out, "value", &self.value)?;
        out.end_object()
    }
}

impl FromJson for SetTraceParams {
    ghost reads = { λ json it. IsObject json
        and Required ⟦<String as FromJson>⟧.reads (codes "value") json it.value };

    fn from_json(alloc: Global, value: &JsonRef<'_>) -> Result<SetTraceParams, Misfit> {
        match Members::new(alloc, value).required("value").end() {
            Ok(read) => {
                let ((), value) = read;
                Ok(SetTraceParams { value })
            }
            Err(misfit) => Err(misfit),
        }
    }
}

/// The params of `$/logTrace` (LSP 3.17, "LogTrace").
#[derive(Drop)]
pub struct LogTraceParams {
    /// What was done.
    pub message: String,
    /// More about it, if the client wants `verbose` traces.
    pub verbose: Option<String>,
}

impl LogTraceParams {
    ghost use Rattle.std.specs.Prelude.{◌≡◌, None};

    /// Makes one from the required members. The others are `None`.
    pub fn new(message: String) -> LogTraceParams
        ensures { result ≡ record {
          message = message;
          verbose = None;
        } }
    {
        LogTraceParams {
            message,
            verbose: None,
        }
    }
}

impl ToJson for LogTraceParams {
    ghost stands = { λ it. object_of (
        (codes "message", Some (⟦<String as ToJson>⟧.stands it.message))
        ∷ (codes "verbose", option_map ⟦<String as ToJson>⟧.stands it.verbose) ∷ []) };

    fn write_json<S: JsonSink>(&self, out: &mut S) -> Result<(), S::Error> {
        out.begin_object()?;
        write_member(out, "message", &self.message)?;
        write_some(out, "verbose", &self.verbose)?;
        out.end_object()
    }
}

impl FromJson for LogTraceParams {
    ghost reads = { λ json it. IsObject json
        and Required ⟦<String as FromJson>⟧.reads (codes "message") json it.message
        and Optional ⟦<String as FromJson>⟧.reads (codes "verbose") json it.verbose };

    fn from_json(alloc: Global, value: &JsonRef<'_>) -> Result<LogTraceParams, Misfit> {
        match Members::new(alloc, value)
            .required("message")
            .optional("verbose")
            .end()
        {
            Ok(read) => {
                let (((), message), verbose) = read;
                Ok(LogTraceParams { message, verbose })
            }
            Err(misfit) => Err(misfit),
        }
    }
}

/// The params of `$/cancelRequest` (LSP 3.17, "Cancellation Support").
#[derive(Drop)]
pub struct CancelParams {
    /// The id of the request that is no longer needed.
    pub id: NumberOrString,
}

impl ToJson for CancelParams {
    ghost stands = { λ it. object_of (
        (codes "id", Some (⟦<NumberOrString as ToJson>⟧.stands it.id)) ∷ []) };

    fn write_json<S: JsonSink>(&self, out: &mut S) -> Result<(), S::Error> {
        out.begin_object()?;
        write_member(out, "id", &self.id)?;
        out.end_object()
    }
}

impl FromJson for CancelParams {
    ghost reads = { λ json it. IsObject json
        and Required ⟦<NumberOrString as FromJson>⟧.reads (codes "id") json it.id };

    fn from_json(alloc: Global, value: &JsonRef<'_>) -> Result<CancelParams, Misfit> {
        match Members::new(alloc, value).required("id").end() {
            Ok(read) => {
                let ((), id) = read;
                Ok(CancelParams { id })
            }
            Err(misfit) => Err(misfit),
        }
    }
}

/// What the server can do from now on (LSP 3.17, "Register Capability").
#[derive(Drop)]
pub struct Registration {
    /// An id for it, by which it is unregistered.
    pub id: String,
    /// The method that the client may send from now on.
    pub method: String,
    /// The method's options: the members of those in `ServerCapabilities`, and mostly `documentSelector`.
    pub register_options: Option<Value>,
}

impl Registration {
    ghost use Rattle.std.specs.Prelude.{◌≡◌, None};

    /// Makes one from the required members. The others are `None`.
    pub fn new(id: String, method: String) -> Registration
        ensures { result ≡ record {
          id = id;
          method = method;
          register_options = None;
        } }
    {
        Registration {
            id,
            method,
            register_options: None,
        }
    }
}

impl ToJson for Registration {
    ghost stands = { λ it. object_of (
        (codes "id", Some (⟦<String as ToJson>⟧.stands it.id))
        ∷ (codes "method", Some (⟦<String as ToJson>⟧.stands it.method))
        ∷ (codes "registerOptions", option_map ⟦<Value as ToJson>⟧.stands it.register_options) ∷ []) };

    fn write_json<S: JsonSink>(&self, out: &mut S) -> Result<(), S::Error> {
        out.begin_object()?;
        write_member(out, "id", &self.id)?;
        write_member(out, "method", &self.method)?;
        write_some(out, "registerOptions", &self.register_options)?;
        out.end_object()
    }
}

impl FromJson for Registration {
    ghost reads = { λ json it. IsObject json
        and Required ⟦<String as FromJson>⟧.reads (codes "id") json it.id
        and Required ⟦<String as FromJson>⟧.reads (codes "method") json it.method
        and Optional ⟦<Value as FromJson>⟧.reads (codes "registerOptions") json it.register_options };

    fn from_json(alloc: Global, value: &JsonRef<'_>) -> Result<Registration, Misfit> {
        match Members::new(alloc, value)
            .required("id")
            .required("method")
            .optional("registerOptions")
            .end()
        {
            Ok(read) => {
                let ((((), id), method), register_options) = read;
                Ok(Registration {
                    id,
                    method,
                    register_options,
                })
            }
            Err(misfit) => Err(misfit),
        }
    }
}

/// The params of `client/registerCapability` (LSP 3.17, "Register Capability").
#[derive(Drop)]
pub struct RegistrationParams {
    /// What the server can do.
    pub registrations: Vec<Registration>,
}

impl ToJson for RegistrationParams {
    ghost stands = { λ it. object_of (
        (codes "registrations", Some (⟦<Vec<Registration> as ToJson>⟧.stands it.registrations)) ∷ []) };

    fn write_json<S: JsonSink>(&self, out: &mut S) -> Result<(), S::Error> {
        out.begin_object()?;
        write_member(out, "registrations", &self.registrations)?;
        out.end_object()
    }
}

impl FromJson for RegistrationParams {
    ghost reads = { λ json it. IsObject json
        and Required ⟦<Vec<Registration> as FromJson>⟧.reads (codes "registrations") json it.registrations };

    fn from_json(alloc: Global, value: &JsonRef<'_>) -> Result<RegistrationParams, Misfit> {
        match Members::new(alloc, value).required("registrations").end() {
            Ok(read) => {
                let ((), registrations) = read;
                Ok(RegistrationParams { registrations })
            }
            Err(misfit) => Err(misfit),
        }
    }
}

/// What the server unregisters (LSP 3.17, "Unregister Capability").
#[derive(Drop)]
pub struct Unregistration {
    /// The id that it was registered with.
    pub id: String,
    /// The method.
    pub method: String,
}

impl ToJson for Unregistration {
    ghost stands = { λ it. object_of (
        (codes "id", Some (⟦<String as ToJson>⟧.stands it.id))
        ∷ (codes "method", Some (⟦<String as ToJson>⟧.stands it.method)) ∷ []) };

    fn write_json<S: JsonSink>(&self, out: &mut S) -> Result<(), S::Error> {
        out.begin_object()?;
        write_member(out, "id", &self.id)?;
        write_member(out, "method", &self.method)?;
        out.end_object()
    }
}

impl FromJson for Unregistration {
    ghost reads = { λ json it. IsObject json
        and Required ⟦<String as FromJson>⟧.reads (codes "id") json it.id
        and Required ⟦<String as FromJson>⟧.reads (codes "method") json it.method };

    fn from_json(alloc: Global, value: &JsonRef<'_>) -> Result<Unregistration, Misfit> {
        match Members::new(alloc, value)
            .required("id")
            .required("method")
            .end()
        {
            Ok(read) => {
                let (((), id), method) = read;
                Ok(Unregistration { id, method })
            }
            Err(misfit) => Err(misfit),
        }
    }
}

/// The params of `client/unregisterCapability` (LSP 3.17, "Unregister Capability").
#[derive(Drop)]
pub struct UnregistrationParams {
    /// What is unregistered. The standard has this spelling of the key.
    pub unregisterations: Vec<Unregistration>,
}

impl ToJson for UnregistrationParams {
    ghost stands = { λ it. object_of (
        (codes "unregisterations", Some (⟦<Vec<Unregistration> as ToJson>⟧.stands it.unregisterations)) ∷ []) };

    fn write_json<S: JsonSink>(&self, out: &mut S) -> Result<(), S::Error> {
        out.begin_object()?;
        write_member(out, "unregisterations", &self.unregisterations)?;
        out.end_object()
    }
}

impl FromJson for UnregistrationParams {
    ghost reads = { λ json it. IsObject json
        and Required ⟦<Vec<Unregistration> as FromJson>⟧.reads (codes "unregisterations") json it.unregisterations };

    fn from_json(alloc: Global, value: &JsonRef<'_>) -> Result<UnregistrationParams, Misfit> {
        match Members::new(alloc, value)
            .required("unregisterations")
            .end()
        {
            Ok(read) => {
                let ((), unregisterations) = read;
                Ok(UnregistrationParams { unregisterations })
            }
            Err(misfit) => Err(misfit),
        }
    }
}

// What a client is asked to notify a server of.
ghost use Rattle.std.specs.Prelude.{◌≡◌, IfOk};
ghost use Rattle.lsp_methods.specs.Registering.{can_watch, registers, registration_params, unregisters, unregistration_params};
ghost use Rattle.lsp_acts.specs.View.{act_view};
ghost use Rattle.serde_json.specs.View.{view};

use crate::sending::send_request;
use lsp_acts::Act;
use lsp_types::methods::{RegistrationRequest, UnregistrationRequest};
use lsp_types::{Registration, RegistrationParams, ToJson, Unregistration, UnregistrationParams};
use serde_json::Value;
use std::alloc::{AllocError, Global};

/// Returns whether a client can be asked to watch files: `workspace.didChangeWatchedFiles.dynamicRegistration` of its
/// capabilities is true (LSP 3.17, "DidChangeWatchedFiles Notification"). Such a client takes `register` with the method
/// `workspace/didChangeWatchedFiles`.
pub fn can_watch_files(client: &Value) -> bool
    ensures { result ≡ can_watch (view client.now) }
{
    match client.pointer("/workspace/didChangeWatchedFiles/dynamicRegistration") {
        Some(can) => can.as_bool() == Some(true),
        None => false,
    }
}

/// Makes the request that registers one method: `client/registerCapability` (LSP 3.17, "Register Capability"). The
/// client then sends messages of this method, as the options say. They are the registration options of the method, for
/// example `DidChangeWatchedFilesRegistrationOptions` of `lsp_types_workspace`. `id` is for `unregister`. `payload` is
/// kept for the reply, which has null or an error. Call it after `initialized`, for a client whose capabilities have
/// `dynamicRegistration` for the method.
///
/// `Err` means that an allocation failed.
pub fn register<T: ToJson, P: Drop + PartialEq>(
    alloc: Global,
    id: &str,
    method: &str,
    options: &T,
    payload: P,
) -> Result<Act<P>, AllocError>
    ensures { IfOk result (λ act. act_view P.eq act
        ≡ registers id.now method.now (T.stands options.now) «payload») }
{
    match registration(alloc, id, method, options) {
        Ok(params) => {
            let asked = send_request::<RegistrationRequest, P>(alloc, &params, payload);
            drop(params);
            asked
        }
        Err(failed) => {
            drop(payload);
            Err(failed)
        }
    }
}

/// Makes the request that ends a registration: `client/unregisterCapability` (LSP 3.17, "Unregister Capability"). `id`
/// and `method` are those that were registered. `payload` is kept for the reply, which has null or an error.
///
/// `Err` means that an allocation failed.
pub fn unregister<P: Drop + PartialEq>(
    alloc: Global,
    id: &str,
    method: &str,
    payload: P,
) -> Result<Act<P>, AllocError>
    ensures { IfOk result (λ act. act_view P.eq act
        ≡ unregisters id.now method.now «payload») }
{
    match unregistration(alloc, id, method) {
        Ok(params) => {
            let asked = send_request::<UnregistrationRequest, P>(alloc, &params, payload);
            drop(params);
            asked
        }
        Err(failed) => {
            drop(payload);
            Err(failed)
        }
    }
}

/// Makes the params that register one method.
fn registration<T: ToJson>(
    alloc: Global,
    id: &str,
    method: &str,
    options: &T,
) -> Result<RegistrationParams, AllocError>
    ensures { IfOk result (λ params. ⟦<RegistrationParams as ToJson>⟧.stands params
        ≡ registration_params id.now method.now (T.stands options.now)) }
{
    let registration = Registration {
        id: String::from_str(alloc, id)?,
        method: String::from_str(alloc, method)?,
        register_options: Some(options.to_json(alloc)?),
    };
    Ok(RegistrationParams {
        registrations: vec![in alloc; registration]?,
    })
}

/// Makes the params that end one registration.
fn unregistration(alloc: Global, id: &str, method: &str) -> Result<UnregistrationParams, AllocError>
    ensures { IfOk result (λ params. ⟦<UnregistrationParams as ToJson>⟧.stands params
        ≡ unregistration_params id.now method.now) }
{
    let unregistration = Unregistration {
        id: String::from_str(alloc, id)?,
        method: String::from_str(alloc, method)?,
    };
    Ok(UnregistrationParams {
        unregisterations: vec![in alloc; unregistration]?,
    })
}

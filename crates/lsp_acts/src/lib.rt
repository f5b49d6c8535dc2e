//! Servers that return acts. Each becomes an application with its queues of requests (`ServerApplication`). The session
//! itself, which runs any `Application`, is in `lsp_session`.
#![tactic(auto)]

mod act_diagnostics;
mod act_from_request;
mod act_typed;
mod act_window;
pub mod laws;
mod server;
mod server_application;

pub use lsp_session::{Application, Output, Service, serve_service};
pub use server::{Act, Server};
pub use server_application::{ServerApplication, cancelled_id};

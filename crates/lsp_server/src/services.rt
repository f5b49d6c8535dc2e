//! Services. A service decides about each message of a session itself. Each application is a service.

pub use lsp_acts::{Output, Service, serve_service};
pub use lsp_session::{SessionOutcome, StopReason, ToSend, null_response};

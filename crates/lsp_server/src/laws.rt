//! Laws of messages, ids, queues, sessions and the dispatcher. Each is the contract of a function, so the proofs of callers can
//! use it.

pub use lsp_acts::laws::{
    call_sends_its_acts, id_used_once_is_answered_once, lost_client_is_owed_what_is_held,
    server_application_runs_its_server, server_keeps_laws, server_session_ends_well,
    shutdown_leaves_nobody_waiting,
};
pub use lsp_dispatch::laws::replies_once;
pub use lsp_message::laws::{
    clone_of_error, clone_of_message, clone_of_notification, clone_of_request, clone_of_response,
    frames_are_read_back, front_of_frame, kinds_print_apart, one_text_without_floats,
};
pub use lsp_peers::laws as peers;
pub use lsp_queue::laws::pending_is_last_registered;
pub use lsp_session::laws::{clients, dialogs, endings, policies, sessions, streams, turns};
pub use lsp_threads::laws::{
    handler_in_threads_ends_well, nothing_is_skipped_in_threads, session_in_threads_ends_well,
};

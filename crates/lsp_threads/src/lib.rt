//! Pumps and sessions with a thread that reads and a thread that writes: the inbox and the outbox on the ends of their
//! relays, the threads, `pump` and `run_threads`. `lsp_server` exports the public items under the same names.
#![tactic(auto)]

mod backlog;
mod content_batch;
mod content_parts;
mod content_reader;
mod frame_batch;
mod frame_text;
mod goes_on;
pub mod laws;
mod parcels;
mod peeking_reader;
mod pump_frames;
mod pumping;
mod reply_outbox;
mod run;
mod serving;
mod thread_ends;
mod watched_writer;
mod workers;
mod write_trace;

pub use content_batch::{Contents, ContentsPlan, ContentsRx, ContentsTx};
pub use lsp_relay::StartFault;
pub use pumping::{PumpFault, PumpOutcome, pump, pump_traced, pump_with, pump_within};
pub use run::{
    DEFAULT_READ_AHEAD_BYTES, ThreadOptions, Threaded, ThreadsOutcome, UNWRITTEN_BYTES,
    run_in_threads, run_in_threads_over, run_threads, run_threads_within,
};
pub use write_trace::WriteTrace;

//! Long requests, and a server's own work, as jobs. Jobs run in threads of their own, and the server goes on meanwhile.
#![tactic(auto)]

mod asking;
mod cancellation;
mod channel;
mod entries;
mod inline_jobs;
mod job;
mod job_server;
pub mod laws;
mod names;
mod notifier;
mod pool;
mod pooled_server;
mod progress;
mod reporter;
mod returned_trees;
mod run;
mod table;
mod waiting_jobs;
mod workers;

pub use asking::RequestOrigin;
pub use inline_jobs::InlineJobs;
pub use job::{DoneJob, Interrupted, Job, JobContext, JobResult};
pub use job_server::{
    AnsweredBy, JobCommand, JobEnd, JobServer, KeyedJobs, NoKeyedJobs, StatesJobs,
};
pub use names::{JobKey, JobName};
pub use pool::{JobMessage, JobPool, PoolSize, SubmitFault};
pub use pooled_server::PooledServer;
pub use progress::{PartialResults, WorkDone};
pub use run::{JobOptions, run_jobs};

// The entries of jobs by their names: requests and keys in two maps, so that no name of one kind is one of the other.
ghost use Rattle.std.specs.Prelude.{◌≡◌, is_ok, option_copied, OnErr, OnOk};
ghost use Rattle.lsp_jobs.specs.PendingJobs.{no_jobs, without, with_job};
ghost use Rattle.lsp_jobs.specs.Waiting.{entry_of};
ghost use Rattle.lsp_jobs.specs.declared.names.JobName.TheVariants.{Request, Keyed as UnderKey};

use crate::names::{JobKey, JobName};
use lsp_message::RequestId;
use lsp_queue::{Incoming, ReqQueue};
use std::alloc::{AllocError, Global};

/// The entries that are kept under the names of jobs. Contracts see the entry of each name.
#[derive(Drop)]
pub(crate) struct Entries<E: Drop> {
    requests: Incoming<E>,
    keys: Incoming<E>,
}

impl<E: Drop> Entries<E> {
    /// Makes an empty set of entries. It does not allocate.
    pub fn new(alloc: Global) -> Entries<E>
        ensures { entry_of result ≡ no_jobs }
    {
        let requests: ReqQueue<E, ()> = ReqQueue::default(alloc);
        let keys: ReqQueue<E, ()> = ReqQueue::default(alloc);
        Entries {
            requests: requests.incoming,
            keys: keys.incoming,
        }
    }

    /// Keeps an entry. One that was under the name is dropped. The error means that an allocation failed, and nothing
    /// changed.
    pub fn add(&mut self, name: JobName, entry: E) -> Result<(), AllocError>
        ensures ok { OnOk result (entry_of self.new ≡ with_job name «entry» (entry_of self.old)) }
        ensures err { OnErr result (entry_of self.new ≡ entry_of self.old) }
    {
        match name {
            JobName::Request(id) => self.add_request(id, entry),
            JobName::Keyed(key) => self.add_keyed(key, entry),
        }
    }

    fn add_request(&mut self, id: RequestId, entry: E) -> Result<(), AllocError>
        ensures ok { OnOk result
            (entry_of self.new ≡ with_job (Request id) «entry» (entry_of self.old)) }
        ensures err { OnErr result (entry_of self.new ≡ entry_of self.old) }
    {
        done(self.requests.register(id, entry))
    }

    fn add_keyed(&mut self, key: JobKey, entry: E) -> Result<(), AllocError>
        ensures ok { OnOk result
            (entry_of self.new ≡ with_job (UnderKey key) «entry» (entry_of self.old)) }
        ensures err { OnErr result (entry_of self.new ≡ entry_of self.old) }
    {
        done(self.keys.register(key.into_name(), entry))
    }

    /// Returns the entry under a name.
    pub fn get(&self, name: &JobName) -> Option<&E>
        ensures { option_copied result ≡ entry_of self.now name.now }
    {
        match name {
            JobName::Request(id) => self.requests.data(id),
            JobName::Keyed(key) => self.keys.data(key.name()),
        }
    }

    /// Takes out the entry under a name.
    pub fn remove(&mut self, name: &JobName) -> Option<E>
        ensures value { result ≡ entry_of self.old name.now }
        ensures removed { entry_of self.new ≡ without name.now (entry_of self.old) }
    {
        match name {
            JobName::Request(id) => self.remove_request(id),
            JobName::Keyed(key) => self.keys.complete(key.name()),
        }
    }

    /// Takes out the entry of the request with this id.
    pub fn remove_request(&mut self, id: &RequestId) -> Option<E>
        ensures value { result ≡ entry_of self.old (Request id.now) }
        ensures removed { entry_of self.new ≡ without (Request id.now) (entry_of self.old) }
    {
        self.requests.complete(id)
    }
}

/// Returns whether it was registered. A value that was not is dropped.
fn done<F: Drop>(registered: Result<(), F>) -> Result<(), AllocError>
    ensures { is_ok result ≡ is_ok registered }
{
    match registered {
        Ok(()) => Ok(()),
        Err(_) => Err(AllocError),
    }
}

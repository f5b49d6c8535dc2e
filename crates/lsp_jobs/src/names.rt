// The name of a job: the request that it answers, or its key.
ghost use Rattle.std.specs.Prelude.{◌≡◌, IfOk};

use lsp_message::RequestId;
use std::alloc::AllocError;
use std::fmt;
use std::marker::Model;

/// A place for one job that answers no request, such as the analysis of a document. Its name is a text or a number, for
/// example the document's URI. No key is a request's id, whatever ids a client uses. Make one with `JobKey::from`.
#[derive(Debug, Drop)]
pub struct JobKey {
    name: RequestId,
}

impl Model for JobKey {
    ghost use Rattle.lsp_message.specs.Id.{Id};
    ghost use Rattle.lsp_message.specs.IdKeys.{coded_id};

    ghost Value = { Id };

    ghost coded = { coded_id };

    ghost view = { λ key. key.name };
}

impl From<i32> for JobKey {
    ghost use Rattle.lsp_message.specs.Id.{number};

    ghost from_gives = { λ z key. key ≡ number z };

    fn from(name: i32) -> JobKey {
        JobKey {
            name: RequestId::from(name),
        }
    }
}

impl From<String> for JobKey {
    ghost use Rattle.std.specs.Prelude.{string_bytes};
    ghost use Rattle.lsp_message.specs.Id.{text};

    ghost from_gives = { λ name key. key ≡ text (string_bytes name) };

    fn from(name: String) -> JobKey {
        JobKey {
            name: RequestId::from(name),
        }
    }
}

impl fmt::Display for JobKey {
    ghost use Rattle.lsp_message.specs.Id.{printed};

    ghost output = { printed };

    fn fmt<W: fmt::Write>(&self, f: &mut fmt::Formatter<W>) -> fmt::Result {
        write!(f, "{}", self.name)
    }
}

impl JobKey {
    /// Copies the key. The error means that an allocation failed.
    pub fn clone(&self) -> Result<JobKey, AllocError>
        ensures { IfOk result (λ key. key ≡ self.now) }
    {
        Ok(JobKey {
            name: self.name.clone()?,
        })
    }

    /// Returns its name.
    pub(crate) fn name(&self) -> &RequestId
        ensures { result.now ≡ self.now }
    {
        &self.name
    }

    /// Returns its name.
    pub(crate) fn into_name(self) -> RequestId
        ensures { result ≡ «self» }
    {
        self.name
    }
}

/// The name of a job.
#[derive(Debug, Drop)]
pub enum JobName {
    /// The id of the request that the job answers.
    Request(RequestId),
    /// The job's key. The job answers no request.
    Keyed(JobKey),
}

impl JobName {
    /// Returns whether it is a key.
    pub(crate) fn is_keyed(&self) -> bool {
        matches!(self, JobName::Keyed(_))
    }

    /// Copies the name. The error means that an allocation failed.
    pub fn clone(&self) -> Result<JobName, AllocError>
        ensures { IfOk result (λ name. name ≡ self.now) }
    {
        match self {
            JobName::Request(id) => Ok(JobName::Request(id.clone()?)),
            JobName::Keyed(key) => Ok(JobName::Keyed(key.clone()?)),
        }
    }
}

// What a session runs, and what is promised of it.
ghost use Rattle.lsp_session.specs.Prompt.{Talks};
ghost use Rattle.lsp_session.specs.Session.{starting};
ghost use Rattle.lsp_session.specs.SessionLaws.{Both};
ghost use Rattle.lsp_session.specs.SessionOutcome.{StopsBy};

use crate::lifecycle::{TextOutbox, WakingInbox};
use crate::loops::service::Service;
use crate::loops::session_outcome::SessionOutcome;
use crate::loops::transport::serve_transport;
use std::alloc::Global;

/// A server that is ready to run. An application serves one client at a time, and says what is promised about such a
/// session.
///
/// There are two kinds. Take a `HandlerApplication` for a server that only answers (`Handler`). Take a
/// `ServerApplication` of `lsp_acts` for one that also sends first (`Server`). A `Service` of your own, which decides
/// about each message itself, becomes an application if you implement this trait: its `session` is
/// `SessionOut Self.behavior`, and its `begin` does nothing.
///
/// Three functions run any of them. `StreamTransport::serve` runs a session on a reader and a writer, on the caller's
/// thread. `run_in_threads` of `lsp_threads` adds a thread that reads and one that writes. `serve_application` takes
/// messages from elsewhere.
pub trait Application: Service {
    ghost use Rattle.lsp_session.specs.Session.{SessionOut, SessionPart};
    ghost use Rattle.lsp_session.specs.SessionLaws.{Implies};

    /// What is promised about a session that led from the first value to the second: about its exchanges, why it
    /// stopped, the reply to `shutdown`, and the result.
    ghost session: { Self → Self → SessionPart };

    /// Makes the application ready for a session with the next client. Whatever session of the service follows, what
    /// `session` promises is true of it, from the value before this call on.
    fn begin(&mut self)
        ensures { (last : Self) → Implies (SessionOut Self.behavior self.new last) (session self.old last) };
}

/// Runs a session of an application on a value that is both an inbox and an outbox (LSP 3.17, "Server lifecycle").
/// Everything that is to be sent for a message is sent before the session waits for the next one. `serve_transport`
/// describes the session.
pub fn serve_application<L: WakingInbox + TextOutbox, A: Application>(
    alloc: Global,
    transport: &mut L,
    application: &mut A,
) -> SessionOutcome
    ensures { Talks L.receives L.listens L.sends starting
        (Both (A.session application.old application.new) (StopsBy result.stop))
        transport.old result.answer transport.new }
{
    application.begin();
    serve_transport(alloc, transport, application)
}

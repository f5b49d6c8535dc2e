// What the thread of a connection does that reads. It does not read on while too much is unread.
ghost use Rattle.std.specs.Prelude.{◌≡◌, IfSome, map};
ghost use Rattle.lsp_message.specs.Frame.{reading_within};
ghost use Rattle.lsp_message.specs.Reading.{Answers};
ghost use Rattle.lsp_message.specs.View.{message_view};
ghost use Rattle.lsp_server.specs.Weighing.{HandsOn, weighed_view};

use crate::io_fault::IoFault;
use crate::io_threads::reader_end;
use crate::outlet::Outlet;
use crate::unread_weights::{UnreadWeights, weight_of};
use crate::written::Returned;
use crossbeam_channel::Sender;
use lsp_message::{Limits, Message, ReadFault, read_content_within};
use lsp_session::{ReadEnd, is_exit};
use std::alloc::Global;
use std::io::{BufRead, ErrorKind};
use std::sync::Wait;
use std::time::Clock;

/// How much may be read.
#[derive(Drop)]
pub(crate) struct Bounds {
    /// How many bytes a header part and a content part may have.
    pub(crate) limits: Limits,
    /// How much may be unread.
    pub(crate) bound: u64,
    /// The account of what is unread, in which nothing is.
    pub(crate) unread: UnreadWeights,
}

/// A message that was read.
#[derive(Drop)]
struct Weighed {
    message: Message,
    weight: u64,
}

/// The thread that reads.
pub(crate) fn read_all<R: Wait + Clock + Drop, B: BufRead + Drop>(
    rt: R,
    alloc: Global,
    reader: B,
    bounds: Bounds,
    incoming: Sender<Message>,
    returned: Returned<Message>,
) -> Result<(), IoFault> {
    let Bounds {
        limits,
        bound,
        unread,
    } = bounds;
    let mut reader = reader;
    let mut outlet = Outlet::new(&rt, alloc, &incoming, &returned, unread, bound);
    reader_end(read_messages(alloc, &mut reader, &mut outlet, limits))
}

/// Passes on a reader's messages, up to and including the first `exit`, as `read_loop_within` does.
fn read_messages<R: Wait + Clock, B: BufRead>(
    alloc: Global,
    reader: &mut B,
    outlet: &mut Outlet<'_, R>,
    limits: Limits,
) -> ReadEnd
    ensures { IfSome (B.remaining reader.old) (λ text.
        HandsOn limits text (map message_view outlet.old.sent.messages) (B.remaining reader.new) result
        (map message_view outlet.new.sent.messages)) }
{
    for _ in 0..u64::MAX {
        let Weighed { message, weight } = match read_weighed(alloc, reader, outlet, limits) {
            Ok(Some(weighed)) => weighed,
            Ok(None) => return ReadEnd::End,
            Err(fault) => return ReadEnd::Fault(fault),
        };
        let is_last = is_exit(&message);
        match outlet.send(message, weight) {
            Ok(()) => {}
            Err(fault) => return ReadEnd::from(fault),
        }
        if is_last {
            return ReadEnd::Exit;
        }
    }
    ReadEnd::Fault(ReadFault::Input(ErrorKind::Other))
}

/// Reads one message, as `Message::read_traced` does, once it may be read. It takes no byte while too much is unread,
/// and makes no tree that would be too much.
fn read_weighed<R: Wait + Clock, B: BufRead>(
    alloc: Global,
    reader: &mut B,
    outlet: &mut Outlet<'_, R>,
    limits: Limits,
) -> Result<Option<Weighed>, ReadFault>
    ensures read { IfSome (B.remaining reader.old) (λ text.
        Answers weighed_view result (B.remaining reader.new) (reading_within limits text)) }
    ensures unsent { outlet.new.sent.messages ≡ outlet.old.sent.messages }
{
    if outlet.make_room(0).is_err() {
        return Err(ReadFault::Memory);
    }
    let content = match read_content_within(alloc, reader, limits)? {
        Some(content) => content,
        None => return Ok(None),
    };
    outlet.note_read(content.len());
    let weight = weight_of(&content);
    if outlet.make_room(weight).is_err() {
        return Err(ReadFault::Memory);
    }
    let message = Message::from_content(alloc, &content)?;
    Ok(Some(Weighed { message, weight }))
}

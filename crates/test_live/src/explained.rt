// What faults print for a person.
use crate::attempt::{Attempt, Stop};
use lsp_message::{ReadFault, WriteFault};
use lsp_server::{Explained, IoFault, PumpFault, SessionFault, StartFault};
use std::alloc::{AllocError, Global};
use std::io::ErrorKind;

/// `KIND NUMBER`: a fault of reading or writing, alone and as the fault of a session, of a pump and of a connection; or
/// another fault of one of these.
pub fn explained(alloc: Global, row: &str) -> Result<Attempt, Stop> {
    let (kind, number) = row.split_once(" ").ok_or(Stop::Table)?;
    let said = match (kind, number) {
        ("read", number) => read_explained(alloc, read_fault(number)?),
        ("write", "1") => write_explained(alloc, WriteFault::Output(ErrorKind::BrokenPipe)),
        ("write", "2") => write_explained(alloc, WriteFault::Memory),
        ("session", "4") => format!(in alloc; "{}", Explained(SessionFault::Memory)),
        ("pump", "3") => format!(in alloc; "{}", Explained(PumpFault::Start(StartFault::Thread))),
        ("io", "3") => format!(in alloc; "{}", Explained(IoFault::Closed)),
        ("io", "4") => format!(in alloc; "{}", Explained(IoFault::Start)),
        ("io", "5") => format!(in alloc; "{}", Explained(IoFault::Socket(ErrorKind::AddrInUse))),
        ("io", "6") => format!(in alloc; "{}", Explained(IoFault::Memory)),
        _ => return Err(Stop::Table),
    };
    Ok(Attempt::came(said?))
}

fn read_explained(alloc: Global, fault: ReadFault) -> Result<String, AllocError> {
    format!(in alloc;
        "{}; {}; {}; {}",
        Explained(fault),
        Explained(SessionFault::Read(fault)),
        Explained(PumpFault::Read(fault)),
        Explained(IoFault::Read(fault))
    )
}

fn write_explained(alloc: Global, fault: WriteFault) -> Result<String, AllocError> {
    format!(in alloc;
        "{}; {}; {}; {}",
        Explained(fault),
        Explained(SessionFault::Write(fault)),
        Explained(PumpFault::Write(fault)),
        Explained(IoFault::Write(fault))
    )
}

/// The fault of reading that has a number.
fn read_fault(number: &str) -> Result<ReadFault, Stop> {
    Ok(match number {
        "1" => ReadFault::Input(ErrorKind::ConnectionReset),
        "2" => ReadFault::LineNotText,
        "3" => ReadFault::LineEnd,
        "4" => ReadFault::NoSeparator,
        "5" => ReadFault::BadLength,
        "6" => ReadFault::NoLength,
        "7" => ReadFault::ShortBody,
        "8" => ReadFault::BodyNotText,
        "9" => ReadFault::NoJson,
        "10" => ReadFault::NoMessage,
        "11" => ReadFault::Memory,
        "12" => ReadFault::TooLong,
        "13" => ReadFault::Batch,
        "14" => ReadFault::HeaderTooLong,
        _ => return Err(Stop::Table),
    })
}

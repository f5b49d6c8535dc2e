//! The texts of faults, their numbers and kinds, and the numbers of the error codes.
use anyhow::Result;
use lsp_server::dispatch::DispatchFault;
use lsp_server::{
    ErrorCode, IoFault, Message, PumpFault, ReadFault, RegisterFault, SessionFault, StartFault,
    WorldFault, WriteFault,
};
use std::io::ErrorKind;

/// Prints each fault of reading that was asked for, with its number and its kind.
pub fn show_read_faults<R: Print>(rt: &R) -> Result<()> {
    for fault in [
        ReadFault::Input(ErrorKind::TimedOut),
        ReadFault::LineNotText,
        ReadFault::LineEnd,
        ReadFault::NoSeparator,
        ReadFault::BadLength,
        ReadFault::NoLength,
        ReadFault::ShortBody,
        ReadFault::BodyNotText,
        ReadFault::NoJson,
        ReadFault::NoMessage,
        ReadFault::Memory,
        ReadFault::TooLong,
        ReadFault::Batch,
    ] {
        println!(rt; "{fault}: {} {:?}", fault.number(), fault.kind())?;
    }
    Ok(())
}

/// Prints the texts of the faults of writing, of queues, of threads and of sessions.
pub fn show_faults<R: Print>(rt: &R) -> Result<()> {
    let (read, write) = (ReadFault::LineEnd, WriteFault::Memory);
    println!(rt; "{}, {write}", WriteFault::Output(ErrorKind::Other))?;
    println!(rt;
        "{}, {}, {}",
        RegisterFault::Memory(1),
        RegisterFault::Unwritable("data"),
        RegisterFault::Spent(true)
    )?;
    println!(rt; "{}, {}", StartFault::Memory, StartFault::Thread)?;
    println!(rt;
        "{}, {}, {}",
        PumpFault::Read(read),
        PumpFault::Write(write),
        PumpFault::Start(StartFault::Thread)
    )?;
    println!(rt;
        "{}, {}, {}",
        SessionFault::Read(read),
        SessionFault::Write(write),
        SessionFault::Memory
    )?;
    println!(rt; "{}, {}", WorldFault::Memory, WorldFault::NotReadBack)?;
    Ok(())
}

/// Prints the texts of the faults of a connection.
pub fn show_io_faults<R: Print>(rt: &R) -> Result<()> {
    for fault in [
        IoFault::Read(ReadFault::LineEnd),
        IoFault::Write(WriteFault::Memory),
        IoFault::Closed,
        IoFault::Start,
        IoFault::Socket(ErrorKind::Other),
        IoFault::Memory,
    ] {
        println!(rt; "{fault}")?;
    }
    Ok(())
}

/// Prints the texts of the faults of a dispatcher, each of which hands the message back.
pub fn show_dispatch_faults<R: Print>(rt: &R, one: Message, other: Message) -> Result<()> {
    let faults = (DispatchFault::Memory(one), DispatchFault::Spent(other));
    println!(rt; "{}, {}", faults.0, faults.1)?;
    drop(faults);
    Ok(())
}

/// Prints the number of each error code.
pub fn show_codes<R: Print>(rt: &R) -> Result<()> {
    for code in [
        ErrorCode::ParseError,
        ErrorCode::InvalidRequest,
        ErrorCode::MethodNotFound,
        ErrorCode::InvalidParams,
        ErrorCode::InternalError,
        ErrorCode::ServerErrorStart,
        ErrorCode::ServerErrorEnd,
        ErrorCode::ServerNotInitialized,
        ErrorCode::UnknownErrorCode,
        ErrorCode::RequestCanceled,
        ErrorCode::ContentModified,
        ErrorCode::ServerCancelled,
        ErrorCode::RequestFailed,
    ] {
        println!(rt; "{}", code.number())?;
    }
    Ok(())
}

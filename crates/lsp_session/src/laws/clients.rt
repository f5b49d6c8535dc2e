//! What a client receives in a session.
ghost use Rattle.std.specs.Prelude.{◌<◌, ◌^◌, ◌++◌, ℕ, List, length, Option, Some, Result};
ghost use Rattle.lsp_session.specs.ClientReads.{ClientReads};
ghost use Rattle.lsp_session.specs.PassingBytes.{GivesAndTells};
ghost use Rattle.lsp_session.specs.Session.{SessionOut};
ghost use Rattle.lsp_session.specs.SessionBytes.{Gives};
ghost use Rattle.lsp_session.specs.SessionLaws.{Both};
ghost use Rattle.lsp_session.specs.declared.loops.handler.SessionEnd.{SessionEnd as EndOfSession};
ghost use Rattle.lsp_session.specs.declared.loops.stream_session.SessionFault.{SessionFault as FaultOfSession};
ghost use Rattle.lsp_message.specs.declared.frame.limits.Limits.{Limits};

use crate::loops::{BadContentPolicy, Service};

/// A client that reads the bytes which a session wrote receives the messages that the session sent, in order (LSP 3.17,
/// "Base Protocol"), up to the first that nests more than 127 levels. Only the last message may be missing, if a write
/// or an allocation failed. An error's data of null is read back as absent.
///
/// This applies to each session whose writer says what it contains, and that wrote fewer than 2^64 bytes, with a policy
/// or without one. `frames_are_read_back` of `lsp_message` says the same about frames alone.
pub fn client_reads_what_was_sent<S: Service, L: BadContentPolicy>()
    ensures bytes { (limit : Limits) (old new : S) (text : List ℕ) (left : Option (List ℕ))
        (before written : List ℕ) (answer : Result EndOfSession FaultOfSession)
        → length written < 2 ^ 64
        → Gives limit (SessionOut S.behavior old new) text left (Some before)
        (Some (before ++ written)) answer
        → Gives limit (Both (SessionOut S.behavior old new) (ClientReads written answer)) text left
        (Some before) (Some (before ++ written)) answer }
    ensures policy { (limit : Limits) (old new : S) (text : List ℕ) (left : Option (List ℕ))
        (first last : L) (before written : List ℕ) (answer : Result EndOfSession FaultOfSession)
        → length written < 2 ^ 64
        → GivesAndTells L.passes limit (SessionOut S.behavior old new) text left first last
        (Some before) (Some (before ++ written)) answer
        → GivesAndTells L.passes limit
        (Both (SessionOut S.behavior old new) (ClientReads written answer)) text left first last
        (Some before) (Some (before ++ written)) answer }
{}

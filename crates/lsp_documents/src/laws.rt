//! Laws of the documents that a client has opened. Each is the contract of a function, which the proofs of callers can
//! use.
ghost use Rattle.std.specs.Prelude.{◌≡◌, ℕ, ℤ, List, ◌∷◌, Option, Some, None, option_and_then, true, IsSomeAnd};
ghost use Rattle.lsp_text.specs.Documents.{Change};
ghost use Rattle.lsp_documents.specs.declared.fault.DocumentFault.{DocumentFault};
ghost use Rattle.lsp_documents.specs.declared.fault.DocumentFault.TheVariants.{OutOfOrder};
ghost use Rattle.lsp_documents.specs.declared.kept.DocumentState.{DocumentState};
ghost use Rattle.lsp_documents.specs.Held.{documents_of};
ghost use Rattle.lsp_documents.specs.Sessions.{AppliesAll, Arrived, HasNone, MeansAll};
ghost use Rattle.lsp_documents.specs.declared.documents.TextDocuments.{TextDocuments as Texts};
ghost use Rattle.lsp_documents.specs.Notices.{Documents, Notice, kinds_in, Item, text_item, Sent, made, opens, edits, kept_by, shown, version_of, has_whole, is_late, fault_of, Keeps, Makes, TakesAll, Agrees, IsClients, sure, SavesItsText, kept_after_all, kinds_of, told_all, is_current};

/// A document whose text is known is the client's. Take any list of notifications: some were applied, some were not, and of
/// some nothing was known. Then each URI whose text is known has the text of the client's own
/// document, and its version or none. This assumes that a text which was asked for and comes with a save is the
/// client's. A text that was not asked for may be any.
///
/// - A document that is not doubtful has the client's text, whatever text comes with a save, also if a client saves
///   before it sends its last changes (`sure`).
/// - What is kept is exactly what the notifications make of it, one after another (`kept`).
/// - A document that was opened is known, and is the client's in each part, if all its notifications since were applied
///   and none came late (`current`).
/// - Changes with a whole text among them are applied whatever their version is, and leave a text of that version
///   (`whole`). Other changes with a lower version than the document's make its text lost, unless the author chose to
///   apply them (`late`).
/// - A notification that is refused with a URI changes nothing else (`refused`).
pub fn documents_are_the_clients()
    ensures each { (before : Documents) (client : List ℕ
        → Option Item) (sent : List Sent) (now : Documents) → TakesAll before sent now
        → (uri : List ℕ) → Agrees before.sync (client uri) (before.held uri)
        → SavesItsText before.sync (client uri) (kinds_of uri sent)
        → Agrees before.sync (told_all before.sync (client uri) (kinds_of uri sent))
        (now.held uri) }
    ensures sure { (before : Documents) (client : List ℕ
        → Option Item) (sent : List Sent) (now : Documents) → TakesAll before sent now
        → (uri : List ℕ) → Agrees before.sync (client uri) (before.held uri)
        → IsClients before.sync (told_all before.sync (client uri) (kinds_of uri sent))
        (option_and_then sure (now.held uri)) }
    ensures kept { (before : Documents) (sent : List Sent) (now : Documents)
        → TakesAll before sent now → (uri : List ℕ)
        → now.held uri ≡ kept_after_all before.sync uri (before.held uri) sent }
    ensures current { (before : Documents) (uri language_id : List ℕ) (version : Option ℤ)
        (text : List ℕ) (sent : List Sent) (now : Documents)
        → TakesAll before (made (opens uri language_id version text) ∷ sent) now
        → is_current before.sync uri version sent ≡ true → (c : Item)
        × (told_all before.sync (Some (text_item language_id version text)) (kinds_of uri sent)
        ≡ Some c) × (option_and_then shown (now.held uri) ≡ Some (kept_by before.sync c)) }
    ensures whole { (before : Documents) (uri : List ℕ) (version : Option ℤ)
        (list : List Change) (now : Documents) → has_whole list ≡ true
        → (fault_of before.sync (before.held uri) (edits uri version list).kind ≡ None)
        × (Makes before (edits uri version list) now
        → IsSomeAnd (option_and_then shown (now.held uri)) (λ d. d.version ≡ version)) }
    ensures late { (before : Documents) (uri : List ℕ) (version : Option ℤ)
        (list : List Change) (o : DocumentState) (now : Documents) → before.held uri ≡ Some o
        → is_late before.sync version (has_whole list) (version_of o) ≡ true
        → Makes before (edits uri version list) now
        → option_and_then shown (now.held uri) ≡ None }
    ensures refused { (before : Documents) (n : Notice) (now : Documents) (fault : DocumentFault)
        → fault_of before.sync (before.held n.uri) n.kind ≡ Some fault → (fault ≡ OutOfOrder → ⊥)
        → Makes before n now → Keeps before now }
{}

/// A server that applies each notification of a document holds the client's own texts. At each time of a session, each text that the
/// server may look at is the text of the client's own document, and its version is the client's or none.
///
/// No document is open at first. `arrived` has the messages and wake-ups since the result of `initialize`, and whether the server took each
/// text for lost before a message. A server does so if its policy skips content parts (`SkipAndFlag`). `AppliesAll` is what your server
/// promises of each message (`Applies`), one after another. `meant` is what the client told of its documents by these messages. If the
/// params of a notification have another shape than LSP says, the client may have told anything of the document that they name. If they
/// name none, or a content part was skipped, it may have told anything. The premise `SavesItsText` says that a text which the server asked
/// for, and which comes with a save, is the client's own text.
pub fn texts_are_the_clients()
    ensures { (before now : Texts) (arrived : List Arrived) (meant : List Notice) → HasNone before
        → AppliesAll before arrived now → MeansAll arrived meant → (uri : List ℕ)
        → SavesItsText before.sync None (kinds_in uri meant)
        → Agrees before.sync (told_all before.sync None (kinds_in uri meant))
        ((documents_of now).held uri) }
{}

//! Paths of files and their URIs (RFC 8089).
ghost use Rattle.std.specs.Prelude.{◌≡◌, ◌++◌, IfOk, IfErr, MatchBool, OnOk, OnErr, string_bytes, All, ◌≢◌, ◌<◌, ◌∷◌, List, ℕ};
ghost use Rattle.percent_encoding.specs.Percent.{percent_decode as without_escapes};
ghost use Rattle.std.specs.List.{flat_map};
ghost use Rattle.lsp_types.specs.FileUris.{stays as is_kept, written, uri_of, IsPath, begins_digits as digits_first, is_escaped as escaped, Lacks, AreNoPath, IsPathOf, IsFileUri, Names, Refuses, HasNoUri};

use percent_encoding::{percent_decode, percent_encode_byte};
use std::alloc::{AllocError, Global};

/// Why a text names no path, or a path has no URI.
#[derive(Clone, Copy, Debug, Drop, PartialEq)]
pub enum FileUriFault {
    /// An allocation failed.
    Memory,
    /// The text does not begin with `file://`.
    NotFile,
    /// After `file://` there is another host than `localhost`, or no absolute path.
    Host,
    /// It has a query or a fragment: a `?` or `#` without an escape.
    Query,
    /// A `%` is followed by fewer than two hexadecimal digits.
    Escape,
    /// The path is not absolute: it does not begin with `/`.
    Relative,
    /// The path has a NUL, which no file's path has.
    Nul,
    /// The path is no UTF-8.
    NotUtf8,
}

impl From<AllocError> for FileUriFault {
    ghost use Rattle.lsp_types.specs.declared.file_uri.FileUriFault.{FileUriFault};

    ghost from_gives = { λ _ fault. fault ≡ FileUriFault.Memory };

    fn from(_: AllocError) -> FileUriFault {
        FileUriFault::Memory
    }
}

fn stays(byte: u8) -> bool
    ensures { result ≡ is_kept byte }
{
    byte.is_ascii_alphanumeric()
        || byte == b'-'
        || byte == b'.'
        || byte == b'_'
        || byte == b'~'
        || byte == b'/'
}

/// Adds a path as it is written in a URI.
fn push_path(uri: &mut String, path: &str) -> Result<(), AllocError>
    ensures { OnOk result
        (string_bytes uri.new ≡ string_bytes uri.old ++ flat_map written path.now) }
{
    for byte in path.as_bytes() {
        if stays(*byte) {
            uri.push(char::from(*byte))?;
        } else {
            uri.push_str(percent_encode_byte(*byte))?;
        }
    }
    Ok(())
}

/// Returns the URI of an absolute path, such as `file:///project/a%20b`. Letters, digits and `-._~/` are not escaped,
/// and each other byte is written as `%` and two digits (RFC 3986, section 2.3). It is an error if the path does not
/// begin with `/` (`Relative`), or has a NUL (`Nul`).
pub fn uri_of_path(alloc: Global, path: &str) -> Result<String, FileUriFault>
    ensures ok { IfOk result (λ uri. string_bytes uri ≡ uri_of path.now) }
    ensures path { IfOk result (λ _. IsPath path.now) }
    ensures err { IfErr result (λ fault. HasNoUri fault path.now) }
{
    if !is_absolute(path.as_bytes()) {
        return Err(FileUriFault::Relative);
    }
    if !lacks(path.as_bytes(), 0) {
        return Err(FileUriFault::Nul);
    }
    let mut uri = String::from_str(alloc, "file://")?;
    push_path(&mut uri, path)?;
    Ok(uri)
}

/// Returns whether no byte is this one.
fn lacks(bytes: &[u8], byte: u8) -> bool
    ensures { MatchBool result (Lacks byte bytes.now) (Lacks byte bytes.now → ⊥) }
{
    !bytes.contains(&byte)
}

fn is_absolute(path: &[u8]) -> bool
    ensures { MatchBool result ((names : List ℕ) × (path.now ≡ 47 ∷ names))
        ((names : List ℕ) → path.now ≢ 47 ∷ names) }
{
    match path {
        [b'/', ..] => true,
        _ => false,
    }
}

/// Returns whether the bytes begin with two hexadecimal digits.
fn begins_digits(bytes: &[u8]) -> bool
    ensures { result ≡ digits_first bytes.now }
{
    match bytes {
        [high, low, ..] => high.is_ascii_hexdigit() && low.is_ascii_hexdigit(),
        _ => false,
    }
}

/// Returns whether each `%` is followed by two hexadecimal digits.
fn is_escaped(bytes: &[u8]) -> bool
    ensures { result ≡ escaped bytes.now }
{
    for i in 0..bytes.len() {
        if bytes[i] == b'%' && !begins_digits(&bytes[i + 1..]) {
            return false;
        }
    }
    true
}

/// Returns the part after the first `/` of the path of a file URI.
fn names_in(uri: &str) -> Result<&str, FileUriFault>
    ensures ok { IfOk result (λ names. IsFileUri uri.now names.now) }
    ensures err { IfErr result (λ fault. Refuses fault uri.now) }
    ensures none { OnErr result ((names : List ℕ) → IsFileUri uri.now names → ⊥) }
{
    if let Some(names) = uri.strip_prefix("file:///") {
        return Ok(names);
    }
    if let Some(names) = uri.strip_prefix("file://localhost/") {
        return Ok(names);
    }
    match uri.strip_prefix("file://") {
        Some(_) => Err(FileUriFault::Host),
        None => Err(FileUriFault::NotFile),
    }
}

/// Returns the path that is `/` and the decoded names.
fn absolute_path(alloc: Global, names: &[u8]) -> Result<Vec<u8>, AllocError>
    ensures { IfOk result (λ path. path.items ≡ 47 ∷ without_escapes names.now) }
{
    let mut path = vec![in alloc; b'/']?;
    percent_decode(names).append_to(&mut path)?;
    Ok(path)
}

/// Returns the path that is `/` and the decoded names of a URI, as a text.
fn path_of_names(alloc: Global, names: &[u8]) -> Result<String, FileUriFault>
    ensures ok { IfOk result (λ path. IsPathOf names.now (string_bytes path)) }
    ensures err { IfErr result (λ fault. AreNoPath fault names.now) }
{
    if !lacks(names, b'?') || !lacks(names, b'#') {
        return Err(FileUriFault::Query);
    }
    if !is_escaped(names) {
        return Err(FileUriFault::Escape);
    }
    let path = absolute_path(alloc, names)?;
    if !lacks(path.as_slice(), 0) {
        return Err(FileUriFault::Nul);
    }
    match String::from_utf8(path) {
        Ok(path) => Ok(path),
        Err(_) => Err(FileUriFault::NotUtf8),
    }
}

/// Returns the path that a file URI names, such as `/project/a b` (RFC 8089). The host has to be empty or `localhost`.
/// A Windows path `file:///c%3A/a` gives `/c:/a`.
///
/// It is an error if the text is no such URI (`NotFile`, `Host`), has a query or a fragment (`Query`), or a `%` without
/// two hexadecimal digits (`Escape`), and if the path has a NUL or is no UTF-8.
pub fn path_of_uri(alloc: Global, uri: &str) -> Result<String, FileUriFault>
    ensures ok { IfOk result (λ path. Names uri.now (string_bytes path)) }
    ensures err { IfErr result (λ fault. Refuses fault uri.now) }
{
    let names = names_in(uri)?;
    path_of_names(alloc, names.as_bytes())
}

/// Returns whether `bytes` are the decoded `names`, in which `%` and two hexadecimal digits are one byte.
fn are_decoded(names: &[u8], bytes: &[u8]) -> bool
    ensures { MatchBool result (bytes.now ≡ without_escapes names.now)
        (bytes.now ≢ without_escapes names.now) }
{
    let mut rest = bytes;
    for byte in percent_decode(names) {
        match rest {
            [first, others @ ..] if *first == byte => rest = others,
            _ => return false,
        }
    }
    rest.is_empty()
}

/// Returns whether a path is `/` and the decoded names.
fn is_decoded_path(names: &[u8], path: &[u8]) -> bool
    ensures { MatchBool result (path.now ≡ 47 ∷ without_escapes names.now)
        (path.now ≢ 47 ∷ without_escapes names.now) }
{
    match path {
        [b'/', rest @ ..] => are_decoded(names, rest),
        _ => false,
    }
}

/// Returns whether a path is `/` and the decoded names of a URI.
fn is_path_of(names: &[u8], path: &[u8]) -> bool
    ensures { MatchBool result (IsPathOf names.now path.now) (IsPathOf names.now path.now → ⊥) }
{
    lacks(names, b'?')
        && lacks(names, b'#')
        && is_escaped(names)
        && lacks(path, 0)
        && is_decoded_path(names, path)
}

/// Returns whether a file URI names a path, as `path_of_uri` reads it. Editors spell the URI of a path in several ways,
/// and `uri_of_path` returns one of them. So find the document of a path with `TextDocuments::get_by_path` of
/// `lsp_documents`, which calls this for each URI.
pub fn names_path(uri: &str, path: &str) -> bool
    ensures { MatchBool result (Names uri.now path.now) (Names uri.now path.now → ⊥) }
{
    match names_in(uri) {
        Ok(names) => is_path_of(names.as_bytes(), path.as_bytes()),
        Err(_) => false,
    }
}

/// A path that has a URI is the path that this URI names.
pub fn paths_come_back()
    ensures { (path : List ℕ) → All (λ b. b < 256) path → IsPath path → Names (uri_of path) path }
{}

// Paths and their URIs, the folders that are open, the numbers of semantic tokens, and the place that params ask about.
use crate::said::Said;
use crate::types::{read, read_typed, say_json, say_written, unfit};
use lsp_text::{LineEnds, PositionEncoding, Text};
use lsp_types::{
    FileUriFault, InitializeParams, Position, SemanticToken, SemanticTokens, names_path,
    path_of_uri, uri_of_path,
};
use std::alloc::AllocError;

/// Says the URI of a path, or why it has none. The path is a text of JSON.
pub fn uri(said: &mut Said, text: &str) {
    let path = read(said, text, String::new(said.alloc));
    say(said, uri_of_path(said.alloc, path.as_str()))
}

/// Says the path of a URI as a text of JSON, or why it has none.
pub fn path(said: &mut Said, text: &str) {
    say(said, path_of_uri(said.alloc, text))
}

/// Says whether a URI names a path, which follows it as a text of JSON.
pub fn names(said: &mut Said, row: &str) {
    let (uri, path) = said.cut(row, " ");
    let path = read(said, path, String::new(said.alloc));
    said.show(names_path(uri, path.as_str()))
}

/// Says the paths of the folders in the params of `initialize`, as a list of JSON.
pub fn folders(said: &mut Said, text: &str) {
    match read_typed::<InitializeParams>(said.alloc, text) {
        Ok(params) => {
            let paths = params.folder_paths(said.alloc);
            drop(params);
            say_paths(said, paths)
        }
        Err(misfit) => unfit(said, misfit),
    }
}

fn say_paths(said: &mut Said, paths: Result<Vec<String>, AllocError>) {
    match paths {
        Ok(paths) => say_written(said, &paths),
        Err(_) => said.is_short = true,
    }
}

fn say(said: &mut Said, outcome: Result<String, FileUriFault>) {
    match outcome {
        Ok(text) => say_written(said, &text),
        Err(FileUriFault::Memory) => said.is_short = true,
        Err(fault) => said.debug(fault),
    }
}

/// Says the numbers of tokens, each of which is a list of five.
pub fn tokens(said: &mut Said, text: &str) {
    let lists: Vec<Vec<u32>> = read(said, text, Vec::new(said.alloc));
    let mut tokens = Vec::new(said.alloc);
    add_tokens(said, &mut tokens, lists.as_slice());
    drop(lists);
    let encoded = SemanticTokens::encode(said.alloc, tokens.as_slice());
    drop(tokens);
    match encoded {
        Ok(Some(found)) => {
            say_json(said, &found);
            drop(found);
        }
        Ok(None) => said.push("not in order"),
        Err(_) => said.is_short = true,
    }
}

fn add_tokens(said: &mut Said, tokens: &mut Vec<SemanticToken>, lists: &[Vec<u32>]) {
    for list in lists {
        if let [line, start, length, token_type, token_modifiers] = list.as_slice() {
            said.kept(tokens.push(SemanticToken {
                line: *line,
                start: *start,
                length: *length,
                token_type: *token_type,
                token_modifiers: *token_modifiers,
            }));
        }
    }
}

/// Says the place of a position in a text, in bytes, by UTF-16. Both are given as JSON, the position first.
pub fn offset(said: &mut Said, row: &str) {
    let (position, text) = said.cut(row, " ");
    let position = read(said, position, Position::new(0, 0));
    let text = read(said, text, String::new(said.alloc));
    match Text::new(said.alloc, text.as_str()) {
        Ok(text) => {
            let place = text.offset_at(position, PositionEncoding::Utf16);
            drop(text);
            said.show(place)
        }
        Err(_) => said.is_short = true,
    }
}

/// Says the lines of a text, which is given as JSON, and whether there is one more: as `Text::new` ends them, and by
/// the standard.
pub fn lines(said: &mut Said, text: &str) {
    let text = read(said, text, String::new(said.alloc));
    let made = Text::new(said.alloc, text.as_str());
    say_made(said, made);
    said.push(" ");
    let made = Text::with_line_ends(said.alloc, text.as_str(), LineEnds::Standard);
    say_made(said, made);
}

fn say_made(said: &mut Said, made: Result<Text, AllocError>) {
    match made {
        Ok(text) => {
            say_lines(said, &text);
            drop(text);
        }
        Err(_) => said.is_short = true,
    }
}

fn say_lines(said: &mut Said, text: &Text) {
    let count = u32::try_from(text.line_count()).unwrap_or(u32::MAX);
    for number in 0..=count {
        match text.line(number) {
            Some(line) => {
                say_written(said, &line);
                said.push(" ");
            }
            None => said.push("none"),
        }
    }
}

// What is said of a row.
use lsp_message::Message;
use serde_json::Error;
use std::alloc::{AllocError, AllocFailed, Global};
use std::fmt;
use std::fmt::Write;

/// A text that grows while a row is run, and what happened meanwhile.
#[derive(Drop)]
pub struct Said {
    pub alloc: Global,
    pub text: String,
    /// Whether an allocation failed, in a call or in the program, so that the text may lack something.
    pub is_short: bool,
    /// Whether the row has a word that is not known.
    pub is_unknown: bool,
    /// Whether a value has another form than its type.
    pub is_wrong: bool,
}

/// The state on which the steps of a row are taken.
pub trait Stepped {
    /// Takes a step, and says its result.
    fn step(&mut self, said: &mut Said, step: &str);
}

impl Said {
    /// Starts with an empty text.
    pub fn new(alloc: Global) -> Said {
        Said {
            alloc,
            text: String::new(alloc),
            is_short: false,
            is_unknown: false,
            is_wrong: false,
        }
    }

    /// Starts again, for the same row.
    pub fn clear(&mut self) {
        self.text.clear();
        self.is_short = false;
    }

    /// Records whether an allocation failed.
    pub fn note(&mut self, outcome: Result<(), AllocError>) {
        if outcome.is_err() {
            self.is_short = true;
        }
    }

    /// Records whether a list took an item.
    pub fn kept<T: Drop>(&mut self, pushed: Result<(), AllocFailed<T>>) {
        match pushed {
            Ok(()) => {}
            Err(refused) => {
                drop(refused);
                self.is_short = true;
            }
        }
    }

    /// Returns the value that was made, or another one.
    pub fn made<T: Drop>(&mut self, made: Result<T, AllocError>, otherwise: T) -> T {
        match made {
            Ok(made) => {
                drop(otherwise);
                made
            }
            Err(_) => {
                self.is_short = true;
                otherwise
            }
        }
    }

    /// Copies a text.
    pub fn text_of(&mut self, text: &str) -> String {
        let made = String::from_str(self.alloc, text);
        let otherwise = String::new(self.alloc);
        self.made(made, otherwise)
    }

    /// Says these words.
    pub fn push(&mut self, words: &str) {
        let told = self.text.push_str(words);
        self.note(told);
    }

    /// Takes the steps of a row, and says the result of each in a line.
    pub fn steps<S: Stepped>(&mut self, steps: &str, state: &mut S) {
        for step in steps.split("; ") {
            self.begin_step();
            state.step(self, step);
        }
    }

    /// Takes the steps of a row on a new state.
    pub fn steps_on<S: Stepped + Drop>(&mut self, steps: &str, mut state: S) {
        self.steps(steps, &mut state);
        drop(state);
    }

    /// Starts the answer to a step.
    pub fn begin_step(&mut self) {
        if !self.text.is_empty() {
            self.push("\n  ");
        }
    }

    /// Says these words, and a text that was made.
    pub fn add(&mut self, words: &str, made: Result<String, AllocError>) {
        match made {
            Ok(text) => {
                self.push(words);
                self.push(text.as_str());
            }
            Err(_) => self.is_short = true,
        }
    }

    /// Says a value as it prints.
    pub fn show<T: fmt::Display + Drop>(&mut self, value: T) {
        let told = write!(self.text, "{value}");
        drop(value);
        self.note(told);
    }

    /// Says a value as it prints for a programmer.
    pub fn debug<T: fmt::Debug + Drop>(&mut self, value: T) {
        let told = write!(self.text, "{value:?}");
        drop(value);
        self.note(told);
    }

    /// Says these words, and the member text of a message.
    pub fn message(&mut self, words: &str, message: Message) {
        let text = message.member_text(self.alloc);
        drop(message);
        self.add(words, text);
    }

    /// Says the member text of a message, or other words where there is none.
    pub fn message_or(&mut self, message: Option<Message>, words: &str) {
        match message {
            Some(message) => self.message("", message),
            None => self.push(words),
        }
    }

    /// Says these words, and the member texts of messages, one after another.
    pub fn messages(&mut self, words: &str, messages: &[Message]) {
        self.push(words);
        for message in messages {
            let text = message.member_text(self.alloc);
            self.add("", text);
        }
    }

    /// Says these words, and bytes.
    pub fn bytes(&mut self, words: &str, bytes: &[u8]) {
        self.push(words);
        for byte in bytes {
            let told = push_escaped(&mut self.text, *byte);
            self.note(told);
        }
    }

    /// The row has a word that is not known.
    pub fn unknown(&mut self) {
        self.is_unknown = true;
    }

    /// A value was not read or written.
    pub fn refuse(&mut self, error: Error) {
        self.is_wrong = true;
        if error.is_memory() {
            self.is_short = true;
        }
    }

    /// The two parts of a text around the first of these separators.
    pub fn cut<'a>(&mut self, text: &'a str, separator: &str) -> (&'a str, &'a str) {
        match text.split_once(separator) {
            Some(parts) => parts,
            None => {
                self.is_unknown = true;
                (text, "")
            }
        }
    }

    /// The number in a word.
    pub fn count_in(&mut self, word: &str) -> usize {
        match word.parse::<usize>() {
            Ok(count) => count,
            Err(_) => {
                self.is_unknown = true;
                0
            }
        }
    }
}

/// The text that was said apart, and whether it lacks something.
pub fn ended(said: &mut Said, found: Said) -> String {
    said.is_short = said.is_short || found.is_short;
    found.text
}

/// Adds a byte to a text: one that is no visible ASCII character as `\r`, `\n` or `\x` and two digits.
fn push_escaped(text: &mut String, byte: u8) -> Result<(), AllocError> {
    match byte {
        b'\r' => text.push_str("\\r"),
        b'\n' => text.push_str("\\n"),
        b'\\' | 0..=31 | 127..=255 => write!(text, "\\x{byte:02x}"),
        _ => text.push(char::from(byte)),
    }
}

//! The lines that the program prints.

use std::alloc::Global;
use std::fmt::{Debug, Display};

/// The lines so far. One that can't be told is missing, and the program goes on to the next: so no caller has an exit
/// for it.
#[derive(Drop)]
pub(crate) struct Lines {
    alloc: Global,
    text: String,
    lacks_some: bool,
}

impl Lines {
    pub(crate) fn new(alloc: Global) -> Lines {
        Lines {
            alloc,
            text: String::new(alloc),
            lacks_some: false,
        }
    }

    pub(crate) fn alloc(&self) -> Global {
        self.alloc
    }

    pub(crate) fn text(&self) -> &str {
        self.text.as_str()
    }

    /// Whether a line is missing.
    pub(crate) fn lacks_some(&self) -> bool {
        self.lacks_some
    }

    /// Notes that lines are missing: memory ran out, or a call refuses what it should take.
    pub(crate) fn miss(&mut self) {
        self.lacks_some = true;
    }

    pub(crate) fn add(&mut self, line: &str) {
        if writeln!(self.text, "{line}").is_err() {
            self.miss();
        }
    }

    /// Adds what was called with what, and what it answered, as it is shown to a reader.
    pub(crate) fn add_shown<T: Display>(&mut self, what: &str, answer: &T) {
        if writeln!(self.text, "{what}: {answer}").is_err() {
            self.miss();
        }
    }

    /// Adds what was called with what, and a text that it answered.
    pub(crate) fn add_text(&mut self, what: &str, text: &str) {
        self.add_shown(what, &text);
    }

    /// Adds what was called with what, and what it answered.
    pub(crate) fn add_answer<T: Debug>(&mut self, what: &str, answer: &T) {
        if writeln!(self.text, "{what}: {answer:?}").is_err() {
            self.miss();
        }
    }

    /// Adds a line for each of several answers.
    pub(crate) fn add_each<T: Debug>(&mut self, what: &str, answers: &[T]) {
        for answer in answers {
            self.add_answer(what, answer);
        }
    }

    /// Adds what was called with what, and the bytes that it answered, in hexadecimal.
    pub(crate) fn add_bytes(&mut self, what: &str, bytes: &[u8]) {
        match hex::encode(self.alloc, bytes) {
            Ok(digits) => self.add_text(what, digits.as_str()),
            Err(_) => self.miss(),
        }
    }

    /// Adds what a call answered that should succeed.
    pub(crate) fn add_result<T: Debug + Drop, E: Drop>(&mut self, what: &str, came: Result<T, E>) {
        match came {
            Ok(answer) => self.add_answer(what, &answer),
            Err(_) => self.miss(),
        }
    }

    /// Adds the text that such a call answered.
    pub(crate) fn add_text_result<E: Drop>(&mut self, what: &str, came: Result<String, E>) {
        match came {
            Ok(text) => self.add_text(what, text.as_str()),
            Err(_) => self.miss(),
        }
    }

    /// Adds the file that such a call answered.
    pub(crate) fn add_file<E: Drop>(&mut self, what: &str, came: Result<Vec<u8>, E>) {
        match came {
            Ok(file) => self.add_bytes(what, &file),
            Err(_) => self.miss(),
        }
    }
}

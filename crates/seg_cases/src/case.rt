//! A case, and the files of its steps.

use std::alloc::{AllocError, Global};
use std::io::ErrorKind;
use std::rt::Files;
use std::{fs, io};

/// A case of a folder, by its name.
#[derive(Clone, Copy)]
pub(crate) struct Case<'a> {
    pub folder: &'a str,
    pub name: &'a str,
}

impl Case<'_> {
    /// The path of the files of a step, but for their endings.
    pub(crate) fn step(&self, alloc: Global, number: u32) -> Result<String, AllocError> {
        let Case { folder, name } = *self;
        if number == 1 {
            format!(in alloc; "{folder}/{name}")
        } else {
            format!(in alloc; "{folder}/{name}.{number}")
        }
    }

    /// The text that a step is to print, or else its status and the line on standard error, which its folder may have
    /// for all cases.
    pub(crate) fn expected<R: Files + AllocGlobal>(
        &self,
        rt: &R,
        step: &str,
    ) -> io::Result<String> {
        if let Some(text) = text_if_there(rt, step, "txt")? {
            return Ok(text);
        }
        if let Some(status) = text_if_there(rt, step, "status")? {
            return Ok(status);
        }
        fs::read_to_string(rt, format!(in rt.alloc(); "{}/all.status", self.folder)?)
    }
}

/// The words of a step: `build` where no file has others.
pub(crate) fn words<R: Files + AllocGlobal>(rt: &R, step: &str) -> io::Result<Vec<String>> {
    let mut words = Vec::new(rt.alloc());
    match text_if_there(rt, step, "words")? {
        Some(text) => {
            for word in text.lines() {
                words.push(String::from_str(rt.alloc(), word)?)?;
            }
        }
        None => words.push(String::from_str(rt.alloc(), "build")?)?,
    }
    Ok(words)
}

/// The text of the file of a step with this ending; nothing where there is no such file.
pub(crate) fn text_if_there<R: Files + AllocGlobal>(
    rt: &R,
    step: &str,
    ending: &str,
) -> io::Result<Option<String>> {
    match fs::read_to_string(rt, format!(in rt.alloc(); "{step}.{ending}")?) {
        Ok(text) => Ok(Some(text)),
        Err(e) if e.kind() == ErrorKind::NotFound => Ok(None),
        Err(e) => Err(e),
    }
}

/// The names of what is in a folder, in order.
pub(crate) fn sorted_names<R: Files + AllocGlobal + Clone + Drop>(
    rt: &R,
    folder: &str,
) -> io::Result<Vec<String>> {
    let mut names = Vec::new(rt.alloc());
    for entry in fs::read_dir(rt, folder)? {
        names.push(String::from_str(rt.alloc(), entry?.file_name())?)?;
    }
    names.sort()?;
    Ok(names)
}

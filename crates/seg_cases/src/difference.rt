//! Where two texts differ.

use std::alloc::{AllocError, Global};

/// The first line in which two texts differ, with what each has there, `None` at its end; nothing where they are equal.
pub(crate) fn first_difference(
    alloc: Global,
    expected: &str,
    actual: &str,
) -> Result<Option<String>, AllocError> {
    let mut number = 1usize;
    let mut expected_lines = expected.split('\n');
    for line in actual.split('\n') {
        let expected_line = expected_lines.next();
        if expected_line != Some(line) {
            let text = format!(in alloc;
                "line {number}: expected {expected_line:?}, got {line:?}"
            )?;
            return Ok(Some(text));
        }
        number = number.saturating_add(1);
    }
    match expected_lines.next() {
        None => Ok(None),
        Some(line) => Ok(Some(format!(in alloc; "line {number}: expected {line:?}, got none")?)),
    }
}

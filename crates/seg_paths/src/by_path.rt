//! What is kept by the numbers of paths: a value of each, and a blank one of those of which none was set.
ghost use Rattle.std.specs.Prelude.{◌≡◌, ◌+◌, ◌==◌, ℕ, max, length, slice_index_or, if◌then◌else◌, OnOk, OnErr};

use std::alloc::AllocError;

/// The value of the path with a number.
pub fn value_of<T: Copy>(values: &[T], path: u32, blank: T) -> T
    ensures { result ≡ slice_index_or values.now path blank }
{
    match values.get(path as usize) {
        Some(value) => *value,
        None => blank,
    }
}

/// Sets the value of the path with a number. One that holds within a document alone is to tell its document, since
/// nothing here is cleared.
pub fn set_value<T: Copy>(
    values: &mut Vec<T>,
    path: u32,
    blank: T,
    value: T,
) -> Result<(), AllocError>
    ensures set { OnOk result ((k : ℕ)
        → slice_index_or values.new.items k blank
        ≡ (if k == path then value else slice_index_or values.old.items k blank)) }
    ensures length { OnOk result (length values.new.items ≡ max (length values.old.items) (path + 1)) }
    ensures err { OnErr result (values.new.items ≡ values.old.items) }
{
    let place = path as usize;
    let len = values.len().max(place + 1);
    values.resize(len, blank)?;
    values[place] = value;
    Ok(())
}

//! Documents.

use seg_values::{Field, TantivyDocument};
use std::alloc::{AllocError, Global};

/// A document of texts, each with the number of its field.
pub(crate) fn document(
    alloc: Global,
    texts: &[(u32, &str)],
) -> Result<TantivyDocument, AllocError> {
    let mut document = TantivyDocument::new(alloc);
    for (field, text) in texts {
        let Ok(()) = document.add_text(Field::from_field_id(*field), text) else {
            return Err(AllocError);
        };
    }
    Ok(document)
}

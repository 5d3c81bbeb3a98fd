//! The line of a stored document, with pairs of any fields and values.
ghost use Rattle.std.specs.Prelude.{◌≡◌, ◌++◌, true, IsSomeAnd, OnOk};
ghost use Rattle.serde_json.specs.Written.{compact_text};
ghost use Rattle.seg_doc_bytes.specs.StoredDocument.{is_stored_document, stored_document_of};
ghost use Rattle.seg_text.specs.DocumentText.{document_json, document_line};
ghost use Rattle.seg_text.specs.PrintedFronts.{IsPrinted};

use crate::comma::push_comma_if;
use crate::decimal::push_decimal;
use crate::pair::push_pair;
use crate::stored_pairs::push_stored_pairs;
use seg_doc_bytes::document_of;
use seg_values::{Schema, TantivyDocument};
use std::alloc::{AllocError, Global};

/// The line of the document that bytes are the stored form of, with all its pairs. A field that the schema lacks has
/// the empty name. After an error it is open what `out` holds.
///
/// It is printed from its bytes as they come. Only where the keys of an object don't strictly ascend, values are made
/// first.
pub fn push_document(
    out: &mut Vec<u8>,
    alloc: Global,
    schema: &Schema,
    id: usize,
    stored: &[u8],
) -> Result<(), AllocError>
    requires { is_stored_document stored.now ≡ true }
    ensures { OnOk result (IsSomeAnd (stored_document_of stored.now) (λ d. out.new.items
        ≡ out.old.items ++ document_line schema.now id d)) }
{
    out.extend_from_slice(b"doc ")?;
    push_decimal(out, id as u64)?;
    out.push(b' ')?;
    push_pairs(out, alloc, schema, stored)?;
    out.push(b'\n')?;
    Ok(())
}

/// The list of all pairs.
fn push_pairs(
    out: &mut Vec<u8>,
    alloc: Global,
    schema: &Schema,
    stored: &[u8],
) -> Result<(), AllocError>
    ensures { OnOk result
        (IsPrinted (λ d. compact_text (document_json schema.now d)) stored.now out.old.items out.new.items) }
{
    let start = out.len();
    let Some(()) = push_stored_pairs(out, alloc, schema, stored)? else {
        out.truncate(start);
        return push_read_pairs(out, alloc, schema, stored);
    };
    Ok(())
}

/// The list of all pairs, after they are read as values.
fn push_read_pairs(
    out: &mut Vec<u8>,
    alloc: Global,
    schema: &Schema,
    stored: &[u8],
) -> Result<(), AllocError>
    ensures { OnOk result
        (IsPrinted (λ d. compact_text (document_json schema.now d)) stored.now out.old.items out.new.items) }
{
    let Some(document) = document_of(alloc, stored)? else {
        return Err(AllocError);
    };
    push_made_pairs(out, alloc, schema, &document)
}

/// The list of all pairs of a document.
fn push_made_pairs(
    out: &mut Vec<u8>,
    alloc: Global,
    schema: &Schema,
    document: &TantivyDocument,
) -> Result<(), AllocError>
    ensures { OnOk result (out.new.items ≡ out.old.items ++ compact_text (document_json schema.now document.now)) }
{
    out.push(b'[')?;
    let mut later = false;
    for at in 0..document.len() {
        let (field, value) = document.pair(at);
        push_comma_if(out, later)?;
        push_pair(out, alloc, schema, field, value)?;
        later = true;
    }
    out.push(b']')?;
    Ok(())
}

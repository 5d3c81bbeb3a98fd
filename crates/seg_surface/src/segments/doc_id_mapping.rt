//! Where the documents of a segment come from that open segments are merged into.
ghost use Rattle.std.specs.Prelude.{◌≡◌, ◌∷◌, [], IfOk};

use super::titles::opened;
use crate::lines::Lines;
use seg_merger::{IndexMerger, SegmentDocIdMapping};
use seg_open::SegmentReader;
use seg_values::TResult;
use std::alloc::{AllocError, Global};

/// Two readers.
fn pair(
    alloc: Global,
    first: SegmentReader,
    second: SegmentReader,
) -> Result<Vec<SegmentReader>, AllocError>
    ensures { IfOk result (λ readers. readers.items ≡ first ∷ second ∷ []) }
{
    let mut readers = Vec::new(alloc);
    readers.push(first)?;
    readers.push(second)?;
    Ok(readers)
}

/// Where documents come from once a segment is merged with itself.
fn mapping_of_both(alloc: Global, reader: SegmentReader) -> TResult<SegmentDocIdMapping> {
    let schema = reader.schema().share();
    let again = reader.try_clone(alloc)?;
    let readers = pair(alloc, reader, again)?;
    let merger = IndexMerger::from_readers(alloc, schema, readers)?;
    merger.get_doc_id_from_concatenated_data(alloc)
}

fn mapping(alloc: Global) -> TResult<SegmentDocIdMapping> {
    mapping_of_both(alloc, opened(alloc)?)
}

fn add_mapping(lines: &mut Lines, mapping: &SegmentDocIdMapping) {
    lines.add_each("  one of addresses", mapping.addresses());
    lines.add_answer("  mapping_type", &mapping.mapping_type());
}

pub(super) fn add_doc_id_mapping(lines: &mut Lines) {
    lines.add("get_doc_id_from_concatenated_data of that segment and its try_clone:");
    match mapping(lines.alloc()) {
        Ok(mapping) => add_mapping(lines, &mapping),
        Err(_) => lines.miss(),
    }
}

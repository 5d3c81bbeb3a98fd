//! What the columns of a small segment have, by the names of their fields.
ghost use Rattle.std.specs.Prelude.{◌≡◌, IfOk};

use crate::lines::Lines;
use crate::samples::{Words, entry, memory, segment, settings};
use seg_build::SegmentWriter;
use seg_directory::MemoryDirectory;
use seg_fastfield::FacetReader;
use seg_meta::Segment;
use seg_open::SegmentReader;
use seg_values::{
    Facet, Field, FieldEntry, FieldKind, IndexOption, OwnedValue, SchemaBuilder, TResult,
    TantivyDocument, TantivyError, ValueError,
};
use std::alloc::{AllocError, Global};

/// A fast field of numbers.
fn price(alloc: Global) -> Result<FieldEntry, AllocError>
    ensures { IfOk result (λ e. (e.kind ≡ FieldKind.U64) × (e.index ≡ IndexOption.No)) }
{
    let mut price = entry(alloc, "price", FieldKind::U64, IndexOption::No)?;
    price.fast = true;
    Ok(price)
}

/// The segment, of one document.
fn shelves(alloc: Global) -> TResult<Segment> {
    let mut builder = SchemaBuilder::new(alloc);
    builder.add_field(entry(alloc, "shelf", FieldKind::Facet, IndexOption::Basic)?)?;
    builder.add_field(price(alloc)?)?;
    Ok(segment(builder.build(), 1))
}

/// What lies on the shelf `/top/left` and costs 42.
fn article(alloc: Global) -> Result<TantivyDocument, ValueError> {
    let mut document = TantivyDocument::new(alloc);
    let shelf = OwnedValue::Facet(Facet::from_text(alloc, "/top/left")?);
    document.add_field_value(Field::from_field_id(0), shelf)?;
    document.add_field_value(Field::from_field_id(1), OwnedValue::U64(42))?;
    Ok(document)
}

fn add_article(alloc: Global, writer: &mut SegmentWriter<'_, Words>) -> TResult<()> {
    match article(alloc) {
        Ok(article) => writer.add_ref(0, &article),
        Err(_) => Err(TantivyError::OutOfMemory),
    }
}

/// A directory with the files of the document.
fn written(alloc: Global) -> TResult<MemoryDirectory> {
    let mut directory = memory(alloc)?;
    let segment = shelves(alloc)?;
    let mut writer = SegmentWriter::for_segment(alloc, 15_000, segment, &settings(16384), &Words)?;
    add_article(alloc, &mut writer)?;
    writer.finalize(&mut directory)?;
    Ok(directory)
}

/// The segment, open.
fn opened(alloc: Global) -> TResult<SegmentReader> {
    let mut directory = written(alloc)?;
    SegmentReader::open(alloc, &shelves(alloc)?, &mut directory)
}

/// The first price of the first document, if there is one.
fn first_price(alloc: Global, reader: &SegmentReader) -> TResult<Option<u64>> {
    let prices = reader.fast_fields().u64(alloc, "price")?;
    if prices.num_docs() == 0 {
        return Ok(None);
    }
    Ok(prices.first(0))
}

fn add_shelves(lines: &mut Lines, shelves: &FacetReader) {
    let count = shelves.num_facets();
    lines.add_answer("  facet_reader of \"shelf\", num_facets", &count);
    for ord in 0..count {
        let mut shelf = Facet::root(lines.alloc());
        let answer = shelves.facet_from_ord(ord as u64, &mut shelf);
        lines.add_answer(
            "  facet_from_ord, ordinal, answer and facet",
            &(ord, &answer, shelf.encoded_str()),
        );
    }
}

fn add_parts(lines: &mut Lines, reader: &SegmentReader) {
    let alloc = lines.alloc();
    lines.add_answer(
        "  fast_fields, u64 of \"price\", first of document 0",
        &first_price(alloc, reader),
    );
    match reader.facet_reader(alloc, "shelf") {
        Ok(shelves) => add_shelves(lines, &shelves),
        Err(_) => lines.miss(),
    }
}

pub(super) fn add_columns(lines: &mut Lines) {
    lines.add(
        "SegmentReader::open of a document with the facet \"/top/left\" as \"shelf\" and the \"price\" 42:",
    );
    match opened(lines.alloc()) {
        Ok(reader) => add_parts(lines, &reader),
        Err(_) => lines.miss(),
    }
}

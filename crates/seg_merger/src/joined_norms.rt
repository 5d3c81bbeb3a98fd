//! Length ids, joined.
ghost use Rattle.std.specs.Prelude.{◌≡◌, ◌++◌, map, take, drop, Some, IfOk, OnOk};
ghost use Rattle.std.specs.List.{AllByRecursion};
ghost use Rattle.seg_model.specs.Fields as model;
ghost use Rattle.seg_model.specs.Join.{joined_norms};
ghost use Rattle.seg_model.specs.Operations.{kept};
ghost use Rattle.seg_directory.specs.CompositeFiles.{composite};
ghost use Rattle.seg_norms.specs.FieldNorms.{norms_parts};
ghost use Rattle.seg_merger.specs.JoinedNorms.{joined_ids, kept_ids};
ghost use Rattle.seg_open.specs.OpenSegment.{part_of};

use seg_norms::{FieldNormReader, FieldNormsSerializer};
use seg_open::SegmentReader;
use seg_segment::{LengthsByField, write_lengths};
use seg_values::{Field, Schema};
use std::alloc::{AllocError, Global};
use std::marker::Model;

/// The bytes of the file of length ids of segments that are joined.
pub(crate) fn join_norms(
    alloc: Global,
    schema: &Schema,
    parts: &[SegmentReader],
) -> Result<Vec<u8>, AllocError>
    requires schema { AllByRecursion (λ p. p.schema ≡ schema.now) parts.now }
    ensures { IfOk result (λ file. composite file.items
        ≡ Some (norms_parts schema.now (map (joined_norms (map part_of parts.now)) (model.fields schema.now)))) }
{
    let lengths = JoinedLengths { alloc, parts };
    write_lengths(alloc, schema, &lengths)
}

/// The length ids of segments that are joined, one segment after another.
#[derive(Drop)]
struct JoinedLengths<'a> {
    alloc: Global,
    parts: &'a [SegmentReader],
}

impl<'a> Model for JoinedLengths<'a> {
    ghost use Rattle.std.specs.Prelude.{List};
    ghost use Rattle.seg_open.specs.OpenSegment.{OpenSegment};

    ghost Value = { List OpenSegment };

    ghost view = { λ l. l.parts.now };
}

impl<'a> LengthsByField for JoinedLengths<'a> {
    ghost use Rattle.seg_merger.specs.JoinedNorms.{joined_ids};

    ghost ids = { λ parts field. joined_ids parts field };

    fn write_ids(&self, field: Field, file: &mut FieldNormsSerializer) -> Result<(), AllocError> {
        let ids = ids_of(self.alloc, field, self.parts)?;
        match file.serialize_field(field, &ids) {
            Ok(()) => Ok(()),
            Err(_) => Err(AllocError),
        }
    }
}

/// The ids of a field in the kept documents.
fn ids_of(alloc: Global, field: Field, parts: &[SegmentReader]) -> Result<Vec<u8>, AllocError>
    ensures { IfOk result (λ ids. ids.items ≡ joined_ids parts.now field) }
{
    let mut ids = Vec::new(alloc);
    for part in parts {
        add_ids(part, field, &mut ids)?;
    }
    Ok(ids)
}

/// Adds the ids of a field in the kept documents of a segment.
fn add_ids(part: &SegmentReader, field: Field, ids: &mut Vec<u8>) -> Result<(), AllocError>
    ensures { OnOk result (ids.new.items ≡ ids.old.items ++ kept_ids field part.now) }
{
    let Some(norms) = part.fieldnorms_readers().get_field(field) else {
        return Ok(());
    };
    add_kept(part, &norms, ids)
}

/// Adds the ids of the kept documents of a segment.
fn add_kept(
    part: &SegmentReader,
    norms: &FieldNormReader,
    ids: &mut Vec<u8>,
) -> Result<(), AllocError>
    ensures { OnOk result (ids.new.items ≡ ids.old.items ++ kept part.now.alive norms.now) }
{
    part.documents_are_marked();
    for doc in 0..part.max_doc() {
        add_id(part, norms, doc, ids)?;
    }
    Ok(())
}

/// Adds the id of a document, where it has one and is kept.
fn add_id(
    part: &SegmentReader,
    norms: &FieldNormReader,
    doc: u32,
    ids: &mut Vec<u8>,
) -> Result<(), AllocError>
    ensures { OnOk result (ids.new.items
        ≡ ids.old.items ++ kept (take 1 (drop doc part.now.alive)) (take 1 (drop doc norms.now))) }
{
    if doc as usize >= norms.num_docs() {
        return Ok(());
    }
    if !part.is_alive(doc) {
        return Ok(());
    }
    ids.push(norms.fieldnorm_id(doc))?;
    Ok(())
}

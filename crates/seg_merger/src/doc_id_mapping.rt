//! Where the documents of joined segments come from.
ghost use Rattle.std.specs.Prelude.{◌≡◌, ◌<◌, ◌++◌, ◌^◌, length, IfOk, OnOk};
ghost use Rattle.seg_merger.specs.DocIdMapping.{all_alive, mapping_of, places_in, type_of};

use seg_column_file::RowAddr;
use seg_open::SegmentReader;
use std::alloc::{AllocError, Global};
use std::marker::Model;

/// How segments are put together.
#[derive(Clone, Copy, PartialEq, Eq, Debug)]
pub enum MappingType {
    /// All documents of each segment, one segment after another.
    Stacked,
    /// Of a segment with deletes those that are alive.
    StackedWithDeletes,
}

/// For each document of a segment that others are joined to, in order, the number of its segment and its id there, and
/// how they are put together. (tantivy's `indexer/doc_id_mapping.rs`.) It has eight bytes a document.
#[derive(Drop)]
pub struct SegmentDocIdMapping {
    addresses: Vec<RowAddr>,
    mapping_type: MappingType,
}

impl Model for SegmentDocIdMapping {
    ghost use Rattle.seg_merger.specs.DocIdMapping.{Mapping};

    ghost Value = { Mapping };

    ghost view = { λ m. record { addresses = m.addresses.items; mapping_type = m.mapping_type } };
}

impl SegmentDocIdMapping {
    /// Of segments that are open.
    pub(crate) fn of_readers(
        alloc: Global,
        readers: &[SegmentReader],
    ) -> Result<SegmentDocIdMapping, AllocError>
        requires few { length readers.now < 2 ^ 32 }
        ensures { IfOk result (λ mapping. mapping ≡ mapping_of readers.now) }
    {
        let mut addresses = Vec::new(alloc);
        for (segment_ord, reader) in readers.iter().enumerate() {
            push_places(&mut addresses, segment_ord as u32, reader)?;
        }
        Ok(SegmentDocIdMapping {
            addresses,
            mapping_type: type_of(readers),
        })
    }

    pub fn mapping_type(&self) -> MappingType
        ensures { result ≡ self.now.mapping_type }
    {
        self.mapping_type
    }

    pub fn addresses(&self) -> &[RowAddr]
        ensures { result.now ≡ self.now.addresses }
    {
        &self.addresses
    }

    pub(crate) fn into_addresses(self) -> Vec<RowAddr>
        ensures { result.items ≡ self.addresses }
    {
        self.addresses
    }
}

/// Adds the places of the documents of a segment that are alive.
fn push_places(
    addresses: &mut Vec<RowAddr>,
    segment_ord: u32,
    reader: &SegmentReader,
) -> Result<(), AllocError>
    ensures { OnOk result (addresses.new.items ≡ addresses.old.items ++ places_in segment_ord reader.now.alive) }
{
    for row_id in reader.doc_ids_alive() {
        addresses.push(RowAddr {
            segment_ord,
            row_id,
        })?;
    }
    Ok(())
}

/// How segments are put together.
pub(crate) fn type_of(readers: &[SegmentReader]) -> MappingType
    ensures { result ≡ type_of (all_alive readers.now) }
{
    for reader in readers {
        if reader.has_deletes() {
            return MappingType::StackedWithDeletes;
        }
    }
    MappingType::Stacked
}

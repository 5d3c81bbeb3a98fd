//! What a segment that is open has.
ghost use Rattle.std.specs.Prelude.{◌≡◌, ◌+◌, ◌*◌, [], true, false, not, length, map, is_some, replicate, get_or, if◌then◌else◌, Contains, Some, None, IfOk, IfErr, IfSome, MatchOption};
ghost use Rattle.std.specs.List.{count_by, list_all, slice_get};
ghost use Rattle.seg_bits.specs.BitSets.{member_count, numbers_from, words_for};
ghost use Rattle.seg_directory.specs.CompositeFiles.{field_of};
ghost use Rattle.seg_model.specs.Fields.{is_indexed};
ghost use Rattle.seg_model.specs.Shape.{HasFullShape};
ghost use Rattle.seg_open.specs.OpenSegment.{contents_of};
ghost use Rattle.seg_open.specs.ReaderParts.{IsIndexOf, IsSpaceOf};
ghost use Rattle.seg_store.specs.Cache.{unused};
ghost use Rattle.seg_store.specs.Store.{documents_of};
ghost use Rattle.seg_store.specs.StoredFields.{have_stored_fields};

use crate::alive_docs::AliveDocs;
use crate::alive_set::num_deleted;
use crate::opened_fields::share_fields;
use crate::segment_reader::SegmentReader;
use crate::space_usage::SegmentSpaceUsage;
use seg_bits::AliveBitSet;
use seg_column_file::ColumnarReader;
use seg_common::{ByteCount, SegmentId, Shared};
use seg_fastfield::FastFieldReaders;
use seg_norms::{FieldNormReader, FieldNormReaders};
use seg_postings::InvertedIndexReader;
use seg_store::{CachedStoreReader, StoreReader};
use seg_values::{Field, Schema, SchemaCause, TResult, TantivyError};
use std::alloc::Global;
use std::fmt;
use std::fmt::{Debug, Formatter, Write};

impl SegmentReader {
    /// The same reader again, over the same bytes, which takes memory for the list of its fields alone. `OutOfMemory`
    /// is its only error.
    pub fn try_clone(&self, alloc: Global) -> TResult<SegmentReader>
        ensures ok { IfOk result (λ r. r ≡ self.now) }
        ensures err { IfErr result (λ e. e ≡ TantivyError.OutOfMemory) }
    {
        let Ok(fields) = share_fields(alloc, self.fields.as_slice()) else {
            return Err(TantivyError::OutOfMemory);
        };
        let Ok(fast_fields) = self.fast_fields.try_clone(alloc) else {
            return Err(TantivyError::OutOfMemory);
        };
        let Ok(alive) = self.alive.clone() else {
            return Err(TantivyError::OutOfMemory);
        };
        Ok(SegmentReader {
            alloc,
            id: self.id,
            schema: self.schema.share(),
            max_doc: self.max_doc,
            fields,
            store: self.store.share(),
            norms: self.norms.share(),
            fast_fields,
            alive,
            delete_opstamp: self.delete_opstamp,
            sizes: self.sizes,
        })
    }

    pub fn segment_id(&self) -> SegmentId
        ensures { result ≡ self.now.id }
    {
        self.id
    }

    pub fn schema(&self) -> &Schema
        ensures { result.now ≡ self.now.schema }
    {
        &self.schema
    }

    /// How many documents the segment has, including those that are not alive.
    pub fn max_doc(&self) -> u32
        ensures { result ≡ self.now.documents }
    {
        self.max_doc
    }

    /// How many documents are alive.
    pub fn num_docs(&self) -> u32
        ensures { result ≡ member_count self.now.alive }
    {
        self.max_doc - self.num_deleted_docs()
    }

    /// How many documents are not alive.
    pub fn num_deleted_docs(&self) -> u32
        ensures { result ≡ count_by not self.now.alive }
    {
        match &self.alive {
            Some(alive) => num_deleted(alive),
            None => 0,
        }
    }

    /// Whether some document is not alive.
    pub fn has_deletes(&self) -> bool
        ensures { result ≡ not (list_all (λ b. b) self.now.alive) }
    {
        self.alive.is_some()
    }

    /// The stamp up to which the deletes of the segment count, where it has any.
    pub fn delete_opstamp(&self) -> Option<u64>
        ensures { result ≡ self.now.stamp }
    {
        self.delete_opstamp
    }

    /// The documents that are alive, as a set; none where all are.
    pub fn alive_bitset(&self) -> Option<&AliveBitSet>
        ensures { MatchOption result (self.now.alive ≡ replicate self.now.documents true)
            (λ set. (set.now ≡ self.now.alive) × Contains set.now false) }
    {
        self.alive.as_ref()
    }

    /// Whether a document is alive; none is from the number of documents on.
    pub fn is_alive(&self, doc: u32) -> bool
        ensures { result ≡ get_or self.now.alive doc false }
    {
        match &self.alive {
            Some(alive) => alive.is_alive(doc),
            None => doc < self.max_doc,
        }
    }

    /// Each document from the number of documents on counts as deleted.
    pub fn is_deleted(&self, doc: u32) -> bool
        ensures { result ≡ not (get_or self.now.alive doc false) }
    {
        !self.is_alive(doc)
    }

    /// The ids of the documents that are alive, ascending.
    pub fn doc_ids_alive(&self) -> AliveDocs<'_>
        ensures { result ≡ numbers_from 0 self.now.alive }
    {
        match &self.alive {
            Some(alive) => AliveDocs::of_set(alive),
            None => AliveDocs::all(self.max_doc),
        }
    }

    /// Each document is marked as alive or not, and nothing else is.
    pub fn documents_are_marked(&self)
        ensures { length self.now.alive ≡ self.now.documents }
    {
        let _alive = &self.alive;
    }

    /// The file of columns has a row for each document.
    pub fn columns_are_of_documents(&self)
        ensures { self.now.columns.rows ≡ self.now.documents }
    {
        let _fast_fields = &self.fast_fields;
    }

    /// What the segment holds has full shape.
    pub fn contents_have_full_shape(&self)
        ensures { HasFullShape self.now.schema (contents_of self.now) }
    {
        let _store = &self.store;
    }

    /// Each pair of a stored document has a field that is in the schema and stored.
    pub fn stored_pairs_are_of_schema(&self)
        ensures { have_stored_fields self.now.schema (documents_of self.now.blocks) ≡ true }
    {
        let _store = &self.store;
    }

    /// Each field of the schema has its terms where it is indexed, and none elsewhere.
    pub fn indexed_fields_are_open(&self)
        ensures { map is_some self.now.fields ≡ map is_indexed self.now.schema }
    {
        let _fields = &self.fields;
    }

    /// The terms of a field, with their postings; none where the field isn't indexed.
    pub fn opened_field(&self, field: Field) -> Option<&InvertedIndexReader>
        ensures { MatchOption result
            (IfSome (slice_get self.now.fields field) (λ o. o ≡ None))
            (λ r. slice_get self.now.fields field ≡ Some (Some r.now)) }
    {
        match self.fields.get(field.field_id() as usize) {
            Some(Some(opened)) => Some(opened.get()),
            _ => None,
        }
    }

    /// The terms of a field, with their postings; no terms where the field isn't indexed, or isn't one of the schema.
    /// The reader is shared, which takes memory only for a field without terms.
    pub fn inverted_index(&mut self, field: Field) -> TResult<Shared<InvertedIndexReader>>
        ensures same { self.new ≡ self.old }
        ensures ok { IfOk result (IsIndexOf (slice_get self.old.fields field)) }
        ensures err { IfErr result (λ e. e ≡ TantivyError.OutOfMemory) }
    {
        if let Some(Some(opened)) = self.fields.get(field.field_id() as usize) {
            return Ok(opened.share());
        }
        let Ok(empty) = InvertedIndexReader::empty(self.alloc) else {
            return Err(TantivyError::OutOfMemory);
        };
        match Shared::new(self.alloc, empty) {
            Ok(shared) => Ok(shared),
            Err(_) => Err(TantivyError::OutOfMemory),
        }
    }

    /// The stored documents.
    pub fn store_reader(&self) -> &StoreReader
        ensures { result.now ≡ self.now.blocks }
    {
        &self.store
    }

    /// The stored documents, through a reader that keeps this many of the blocks that were used last; 0: none.
    /// `OutOfMemory` is its only error.
    pub fn get_store_reader(
        &self,
        alloc: Global,
        cache_num_blocks: usize,
    ) -> TResult<CachedStoreReader>
        ensures ok { IfOk result (λ r. r ≡ unused cache_num_blocks self.now.blocks) }
        ensures err { IfErr result (λ e. e ≡ TantivyError.OutOfMemory) }
    {
        match CachedStoreReader::new(alloc, self.store.share(), cache_num_blocks) {
            Ok(reader) => Ok(reader),
            Err(_) => Err(TantivyError::OutOfMemory),
        }
    }

    /// The length ids.
    pub fn fieldnorms_readers(&self) -> &FieldNormReaders
        ensures { result.now ≡ self.now.norms }
    {
        &self.norms
    }

    /// The length ids of a field; `NoNorms` where it has no lengths.
    pub fn get_fieldnorms_reader(&self, field: Field) -> TResult<FieldNormReader>
        ensures ok { IfOk result (λ ids. field_of self.now.norms field ≡ Some ids) }
        ensures err { IfErr result (λ e. (e ≡ TantivyError.SchemaError SchemaCause.NoNorms)
            × (field_of self.now.norms field ≡ None)) }
    {
        match self.norms.get_field(field) {
            Some(reader) => Ok(reader),
            None => Err(TantivyError::SchemaError(SchemaCause::NoNorms)),
        }
    }

    /// The columns, by the names of fields.
    pub fn fast_fields(&self) -> &FastFieldReaders
        ensures { result.now ≡ record { schema = self.now.schema; file = self.now.columns } }
    {
        &self.fast_fields
    }

    /// The columns, by their paths.
    pub fn columns(&self) -> &ColumnarReader
        ensures { result.now ≡ self.now.columns }
    {
        self.fast_fields.columnar()
    }

    /// How many documents are alive, and how many bytes its files and the set of these documents have.
    pub fn space_usage(&self) -> SegmentSpaceUsage
        ensures { IsSpaceOf self.now result }
    {
        SegmentSpaceUsage {
            num_docs: self.num_docs(),
            termdict: ByteCount(self.sizes.terms as u64),
            postings: ByteCount(self.sizes.postings as u64),
            positions: ByteCount(self.sizes.positions as u64),
            fast_fields: ByteCount(self.sizes.fast_fields as u64),
            fieldnorms: ByteCount(self.sizes.field_norms as u64),
            store: ByteCount(self.sizes.store as u64),
            deletes: self.alive_bytes(),
        }
    }

    /// How many bytes the set of documents that are alive has; 0 where all are.
    fn alive_bytes(&self) -> ByteCount
        ensures { result.0 ≡ if list_all (λ b. b) self.now.alive then 0 else 4 + 8 * words_for self.now.documents }
    {
        match &self.alive {
            Some(alive) => alive.space_usage(),
            None => ByteCount(0),
        }
    }
}

/// `SegmentReader(ID)`, with the 32 digits of the id.
impl Debug for SegmentReader {
    fn fmt<W: Write>(&self, f: &mut Formatter<W>) -> fmt::Result {
        let mut digits = [0u8; 32];
        f.write_str("SegmentReader(")?;
        f.write_str(self.id.encode_uuid(&mut digits))?;
        f.write_str(")")
    }
}

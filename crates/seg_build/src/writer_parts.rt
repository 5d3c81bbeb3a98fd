//! What a writer of a segment has of its documents.
ghost use Rattle.std.specs.Prelude.{◌≡◌, [], true, IfOk};
ghost use Rattle.seg_model.specs.Fields.{Analyzer};
ghost use Rattle.seg_model.specs.ValidInputs.{names_fit};

use crate::add_operation::Opstamp;
use crate::added_values::add_values;
use crate::field::FieldPostings;
use crate::fields::new_fields;
use crate::lengths::record_lengths;
use seg_check::IndexedValue;
use seg_fastfield::FastFieldsWriter;
use seg_norms::FieldNormsWriter;
use seg_store::StoreWriter;
use seg_tokens::Analyzers;
use seg_values::{Compressor, Pairs, Schema};
use std::alloc::{AllocError, Global};

/// The terms and the lengths of documents, their values in fast fields, their store, their stamps, and how often terms
/// occur in them, at most `usize::MAX`. A field has lengths up to its last document with a value: those after it are 0.
#[derive(Drop)]
pub(crate) struct WriterParts {
    pub fields: Vec<FieldPostings>,
    pub norms: FieldNormsWriter,
    pub fast: FastFieldsWriter,
    pub store: StoreWriter,
    pub stamps: Vec<Opstamp>,
    pub occurrences: usize,
}

impl WriterParts {
    ghost use Rattle.seg_build.specs.SegmentWriters.{kept_of, IsKeptOf, HasRoom, HasTaken};

    /// Parts of no documents, where all tokenizers are known.
    pub fn new<Z: Analyzers>(
        alloc: Global,
        schema: &Schema,
        analyzers: &Z,
        block_size: u32,
    ) -> Result<WriterParts, AllocError>
        requires { names_fit schema.now ≡ true }
        ensures { IfOk result (λ parts. (analyzer : Analyzer)
            → IsKeptOf schema.now analyzer block_size [] [] (kept_of parts)) }
    {
        let fields = new_fields(alloc, schema.fields())?;
        let Ok(norms) = FieldNormsWriter::for_schema(alloc, schema) else {
            return Err(AllocError);
        };
        let Ok(fast) = FastFieldsWriter::from_schema_and_tokenizer_manager(alloc, schema, analyzers)
        else {
            return Err(AllocError);
        };
        let Ok(store) = StoreWriter::new(alloc, Compressor::None, block_size, false) else {
            return Err(AllocError);
        };
        Ok(WriterParts {
            fields,
            norms,
            fast,
            store,
            stamps: Vec::new(alloc),
            occurrences: 0,
        })
    }

    /// Adds a document, of which these are the indexed values.
    pub fn with_document<Z: Analyzers>(
        self,
        alloc: Global,
        schema: &Schema,
        analyzers: &Z,
        document: &Pairs<'_>,
        values: &[IndexedValue],
        stamp: Opstamp,
    ) -> Result<WriterParts, AllocError>
        requires room { HasRoom (Z.knows analyzers.now)
            (Z.tokens_of analyzers.now) document.now values.now (kept_of self) }
        ensures { IfOk result (λ parts. HasTaken schema.now (Z.tokens_of analyzers.now) document.now values.now stamp
            (kept_of self) (kept_of parts)) }
    {
        let mut parts = self;
        let taking = &mut parts;
        let id = taking.stamps.len() as u32;
        let occurrences = add_values(alloc, id, document, values, &mut taking.fields)?;
        record_lengths(id, values, &taking.fields, &mut taking.norms)?;
        taking.occurrences = taking.occurrences.saturating_add(occurrences);
        let Ok(()) = taking.fast.add_pairs(document, analyzers) else {
            return Err(AllocError);
        };
        let Ok(()) = taking.store.store_pairs(document, schema) else {
            return Err(AllocError);
        };
        if taking.stamps.push(stamp).is_err() {
            return Err(AllocError);
        }
        Ok(parts)
    }
}

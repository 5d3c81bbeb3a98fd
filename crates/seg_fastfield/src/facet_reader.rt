//! The facets of a segment by their ordinals.
ghost use Rattle.std.specs.Prelude.{◌≡◌, ◌<◌, Some, [], get_or, length, slice_get, IfErr, OnOk, OnErr};
ghost use Rattle.seg_values.specs.declared.error.TantivyError.TheVariants.{OutOfMemory};

use seg_columns::{ColumnValues, Dictionary, StrColumn};
use seg_values::{Facet, TResult, TantivyError};
use std::marker::Model;

/// The column of a facet field. A facet's ordinal is its place among the distinct facets of the segment, in the byte
/// order of their encoded texts.
#[derive(Drop)]
pub struct FacetReader {
    column: StrColumn,
}

impl Model for FacetReader {
    ghost use Rattle.seg_columns.specs.TermColumns.{TermColumn};

    ghost Value = { TermColumn };

    ghost view = { λ r. r.column };
}

impl FacetReader {
    pub fn new(column: StrColumn) -> FacetReader
        ensures { result ≡ column }
    {
        FacetReader { column }
    }

    /// How many distinct facets there are, also those of deleted documents alone.
    pub fn num_facets(&self) -> usize
        ensures { result ≡ length self.now.terms }
    {
        self.column.num_terms()
    }

    /// Makes `output` the facet of an ordinal.
    pub fn facet_from_ord(&self, ord: u64, output: &mut Facet) -> TResult<()>
        requires { ord < length self.now.terms }
        ensures ok { OnOk result (slice_get self.now.terms ord ≡ Some output.new) }
        ensures err { IfErr result (λ e. e ≡ OutOfMemory) }
        ensures kept { OnErr result (output.new ≡ output.old) }
    {
        let Some(text) = self.column.text(ord) else {
            unreachable!()
        };
        let Ok(()) = output.set_encoded_str(text) else {
            return Err(TantivyError::OutOfMemory);
        };
        Ok(())
    }

    /// The ordinals of a document's facets.
    pub fn facet_ords(&self, doc: u32) -> ColumnValues<'_, u64>
        requires { doc < length self.now.ords }
        ensures { result ≡ get_or self.now.ords doc [] }
    {
        self.column.ords().values_for_doc(doc)
    }

    /// The distinct facets, as encoded texts.
    pub fn facet_dict(&self) -> &Dictionary
        ensures { result.now ≡ self.now.terms }
    {
        self.column.dictionary()
    }
}

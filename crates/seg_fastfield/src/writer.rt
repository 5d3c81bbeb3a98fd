//! The writer of the fast fields of a segment.
ghost use Rattle.std.specs.Prelude.{◌≡◌, ◌⊎◌, ◌<◌, ◌*◌, ◌-◌, ◌^◌, ◌++◌, [], ◌∷◌, ℕ, List, None, Some, true, Err, length, IfSome, IfOk, IfErr, OnOk, OnErr};
ghost use Rattle.std.specs.List.{list_any};
ghost use Rattle.seg_column_file.specs.ColumnFiles.{IsColumnFile, column_file_of, row_count};
ghost use Rattle.seg_column_writer.specs.NamedColumns.{usage_of};
ghost use Rattle.seg_column_writer.specs.ColumnRecords.{ColumnRecord};
ghost use Rattle.seg_column_format.specs.ModelColumns.{columns_in};
ghost use Rattle.seg_model.specs.DocumentCheck.{document_refusal};
ghost use Rattle.seg_model.specs.Columns.{FastValue, columns_of, declared_columns, fast_values};
ghost use Rattle.seg_model.specs.ValidInputs.{has_unknown_fast_tokenizer, names_fit};
ghost use Rattle.seg_column_format.specs.FastTokenizers.{AreKnown};
ghost use Rattle.seg_fastfield.specs.PathNumbers.{AreColumnsOf};
ghost use Rattle.seg_model.specs.SaturatedNumbers.{saturated};
ghost use Rattle.seg_fastfield.specs.MemoryUsage.{total};
ghost use Rattle.seg_fastfield.specs.FastFieldWriters.{Holds, error_of, refusal_of};

use crate::path_columns::PathColumns;
use crate::row_recorder::RowRecorder;
use crate::schema_columns::{declared_columns, field_columns};
use seg_column_format::lack_tokenizers;
use seg_column_writer::{ColumnId, ColumnarWriter};
use seg_columns::ColumnError;
use seg_tokens::Analyzers;
use seg_values::{ArgumentCause, Document, FieldEntry, Pairs, Schema, TResult, TantivyError};
use std::alloc::Global;
use std::marker::Model;

/// Takes the values that documents have in fast fields, and makes the file of their columns, with a row for each
/// document. Columns of fields are declared; those of paths of JSON fields come with their first value.
#[derive(Drop)]
pub struct FastFieldsWriter {
    alloc: Global,
    schema: Schema,
    columns: ColumnarWriter,
    fields: Vec<Option<ColumnId>>,
    paths: Option<PathColumns>,
    rows: u32,
}

impl Model for FastFieldsWriter {
    ghost use Rattle.std.specs.Prelude.{◌≡◌, true, IfSome};
    ghost use Rattle.seg_model.specs.ValidInputs.{names_fit};
    ghost use Rattle.seg_fastfield.specs.FieldColumns.{AreFieldColumns};
    ghost use Rattle.seg_fastfield.specs.DeclaredColumns.{first_columns};
    ghost use Rattle.seg_fastfield.specs.PathNumbers.{AreColumnsOf};
    ghost use Rattle.seg_fastfield.specs.FastFieldWriters.{AreUnderWay, FastWriting};

    ghost Value = { FastWriting };

    ghost view = { λ w. record { schema = w.schema; columns = w.columns; rows = w.rows } };

    ghost invariant = { λ w. (names_fit w.schema ≡ true) × AreUnderWay w.schema w.rows w.columns
        × AreFieldColumns (first_columns w.schema) w.schema w.fields.items
        × IfSome w.paths (λ known. AreColumnsOf known w.columns) };
}

impl FastFieldsWriter {
    /// A writer without a document.
    pub fn from_schema_and_tokenizer_manager<Z: Analyzers>(
        alloc: Global,
        schema: &Schema,
        analyzers: &Z,
    ) -> TResult<FastFieldsWriter>
        requires { names_fit schema.now ≡ true }
        ensures ok { IfOk result (λ w. (w.schema ≡ schema.now) × Holds [] w) }
        ensures refused { list_any (has_unknown_fast_tokenizer (Z.knows analyzers.now)) schema.now ≡ true
            → result ≡ Err (TantivyError.InvalidArgument ArgumentCause.FastTokenizer) }
        ensures err { IfErr result (λ e. ((e ≡ TantivyError.InvalidArgument ArgumentCause.FastTokenizer)
            × (list_any (has_unknown_fast_tokenizer (Z.knows analyzers.now)) schema.now ≡ true))
            ⊎ (e ≡ TantivyError.OutOfMemory)) }
    {
        if lack_tokenizers(analyzers, schema.fields()) {
            return Err(TantivyError::InvalidArgument(ArgumentCause::FastTokenizer));
        }
        schema.fields_are_valid();
        let Ok(mut columns) = declared_columns(alloc, schema.fields()) else {
            return Err(TantivyError::OutOfMemory);
        };
        let Ok(fields) = field_columns(alloc, &mut columns, schema.fields()) else {
            return Err(TantivyError::OutOfMemory);
        };
        Ok(FastFieldsWriter {
            alloc,
            schema: schema.share(),
            columns,
            fields,
            paths: None,
            rows: 0,
        })
    }

    /// The memory of the values, at 16 bytes each.
    pub fn mem_usage(&self) -> usize
        ensures recorded { result ≡ usage_of self.now.columns }
        ensures documents { (documents : List (List FastValue)) → Holds documents self.now
            → result ≡ saturated (16 * total length documents) }
    {
        self.columns.mem_usage()
    }

    /// Adds a document after the others. After an error it has a row too, with a part of its values.
    pub fn add_document<D: Document, Z: Analyzers>(
        &mut self,
        document: &D,
        analyzers: &Z,
    ) -> TResult<()>
        requires taken { document_refusal self.old.schema (Z.tokens_of analyzers.now) (D.pairs_of document.now) ≡ None }
        requires known { AreKnown (Z.knows analyzers.now) self.old.schema }
        requires few { self.old.rows < 2 ^ 31 - 1 }
        ensures ok { OnOk result ((documents : List (List FastValue)) → Holds documents self.old
            → Holds (documents ++ fast_values self.old.schema (Z.tokens_of analyzers.now)
            (D.pairs_of document.now) ∷ []) self.new) }
        ensures err { IfErr result (λ e. e ≡ TantivyError.OutOfMemory) }
        ensures same { self.new.schema ≡ self.old.schema }
    {
        let Ok(pairs) = document.pairs(self.alloc) else {
            return Err(TantivyError::OutOfMemory);
        };
        self.add_pairs(&pairs, analyzers)
    }

    /// Adds the document of these pairs, as `add_document` does.
    pub fn add_pairs<Z: Analyzers>(&mut self, document: &Pairs<'_>, analyzers: &Z) -> TResult<()>
        requires taken { document_refusal self.old.schema (Z.tokens_of analyzers.now) document.now ≡ None }
        requires known { AreKnown (Z.knows analyzers.now) self.old.schema }
        requires few { self.old.rows < 2 ^ 31 - 1 }
        ensures ok { OnOk result ((documents : List (List FastValue)) → Holds documents self.old
            → Holds (documents ++ fast_values self.old.schema (Z.tokens_of analyzers.now) document.now ∷ []) self.new) }
        ensures err { IfErr result (λ e. e ≡ TantivyError.OutOfMemory) }
        ensures same { self.new.schema ≡ self.old.schema }
    {
        let row = self.rows;
        let known = known_paths(self.alloc, self.paths.take());
        self.schema.fields_are_valid();
        let recorder = RowRecorder {
            alloc: self.alloc,
            analyzers,
            schema: self.schema.fields(),
            fields: &self.fields,
            row,
        };
        self.rows = row + 1;
        let Ok(known) = recorder.record_document(&mut self.columns, known, document) else {
            return Err(TantivyError::OutOfMemory);
        };
        self.paths = Some(known);
        Ok(())
    }

    /// The bytes of the file of the columns, with a row for each document that was added.
    pub fn serialize(self) -> TResult<Vec<u8>>
        ensures file { IfOk result (λ bytes. IsColumnFile bytes.items × (row_count bytes.items ≡ self.rows)) }
        ensures columns { IfOk result (λ bytes. (documents : List (List FastValue)) → Holds documents self
            → columns_of (declared_columns self.schema) documents ≡ Some (columns_in (column_file_of bytes.items))) }
        ensures err { IfErr result (λ e. (documents : List (List FastValue)) → Holds documents self
            → e ≡ refusal_of (columns_of (declared_columns self.schema) documents)) }
    {
        match self.columns.serialize(self.rows) {
            Ok(bytes) => Ok(bytes),
            Err(e) => Err(refusal(e)),
        }
    }
}

/// What is known of paths: nothing at first, and after an error.
fn known_paths(alloc: Global, known: Option<PathColumns>) -> PathColumns
    ensures { (columns : List ColumnRecord) → IfSome known (λ known. AreColumnsOf known columns)
        → AreColumnsOf result columns }
{
    match known {
        Some(known) => known,
        None => PathColumns::new(alloc),
    }
}

/// Why no file is made, by why no columns are.
fn refusal(error: ColumnError) -> TantivyError
    ensures { result ≡ error_of error }
{
    match error {
        ColumnError::Mixed => TantivyError::InvalidArgument(ArgumentCause::Numbers),
        _ => TantivyError::OutOfMemory,
    }
}

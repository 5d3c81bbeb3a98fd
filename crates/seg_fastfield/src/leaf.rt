//! A leaf of a value, recorded at its path.
ghost use Rattle.std.specs.Prelude.{◌≡◌, ◌+◌, OnOk};
ghost use Rattle.seg_column_writer.specs.DocumentRows.{with_values};
ghost use Rattle.seg_fastfield.specs.FastLeaves.{IsKnown, cut_at, values_of_leaf, values_under};
ghost use Rattle.seg_column_writer.specs.declared.value_kind.ValueKind.TheVariants.{Str};
ghost use Rattle.seg_fastfield.specs.FieldColumns.{IsColumnOf, IsLeafColumn};
ghost use Rattle.seg_fastfield.specs.PathNumbers.{IsKnownAt, IsKnownStill};
ghost use Rattle.seg_fastfield.specs.RecordedLeaves.{CanRecordLeaf, CanRecordTexts};
ghost use Rattle.seg_fastfield.specs.FastFieldWriters.{AreUnderWay};
ghost use Rattle.seg_model.specs.Columns as model;
ghost use Rattle.seg_paths.specs.NumberedLeaves.{leaf_in};
ghost use Rattle.seg_values.specs.ValueTrees.{tree_of};

use crate::path_columns::PathColumns;
use crate::place::Place;
use crate::placed_values::{put_address, put_bool, put_bytes, put_moment, put_number, put_text};
use crate::row_recorder::RowRecorder;
use seg_column_format::column_tokenizer;
use seg_column_writer::{ColumnarWriter, NumericalValue};
use seg_columns::ColumnError;
use seg_common::{DateTime, DateTimePrecision};
use seg_tokens::{Analyzers, Token, Tokens};
use seg_values::{FieldEntry, FieldKind, OwnedValue};

impl<'a, Z: Analyzers> RowRecorder<'a, Z> {
    /// Records a leaf at a path.
    pub(crate) fn record_leaf(
        &self,
        columns: &mut ColumnarWriter,
        known: &mut PathColumns,
        entry: &FieldEntry,
        place: Place,
        path: &str,
        level: u32,
        leaf: &OwnedValue,
    ) -> Result<(), ColumnError>
        requires can { CanRecordLeaf (Z.knows self.now.analyzers.now) self.now.schema.now self.now.row entry.now
            path.now (leaf_in (tree_of leaf.now)) columns.old }
        requires column { IsLeafColumn place.column path.now (leaf_in (tree_of leaf.now)) columns.old }
        requires known { IsKnownAt known.old place.number path.now columns.old }
        ensures recorded { OnOk result (columns.new ≡ with_values self.now.row
            (values_of_leaf (Z.tokens_of self.now.analyzers.now) entry.now path.now level
            (leaf_in (tree_of leaf.now))) columns.old) }
        ensures under_way { AreUnderWay self.now.schema.now (self.now.row + 1) columns.new }
        ensures known { OnOk result (IsKnownStill known.old known.new columns.new) }
    {
        match leaf {
            OwnedValue::Str(text) => self.record_text(
                columns,
                known,
                entry,
                place,
                path,
                text.as_str(),
            ),
            OwnedValue::PreTokStr(given) => {
                self.record_tokens(columns, known, place, path, given.tokens.as_slice())
            }
            OwnedValue::U64(number) => {
                put_number(
                    columns,
                    known,
                    self.row,
                    place,
                    path,
                    NumericalValue::U64(*number),
                )
            }
            OwnedValue::I64(number) => {
                put_number(
                    columns,
                    known,
                    self.row,
                    place,
                    path,
                    NumericalValue::I64(*number),
                )
            }
            OwnedValue::Bool(truth) => put_bool(columns, known, self.row, place, path, *truth),
            OwnedValue::Date(moment) => {
                put_moment(
                    columns,
                    known,
                    self.row,
                    place,
                    path,
                    cut(entry, level, *moment),
                )
            }
            OwnedValue::Facet(facet) => put_text(
                columns,
                known,
                self.row,
                place,
                path,
                facet.encoded_str(),
            ),
            OwnedValue::Bytes(bytes) => put_bytes(
                columns,
                known,
                self.row,
                place,
                path,
                bytes.as_slice(),
            ),
            OwnedValue::IpAddr(address) => put_address(
                columns, known, self.row, place, path, *address,
            ),
            OwnedValue::Null => Ok(()),
            OwnedValue::Array(_) => Ok(()),
            OwnedValue::Object(_) => Ok(()),
        }
    }

    /// Records a text: whole, or its tokens where the field has a fast tokenizer.
    fn record_text(
        &self,
        columns: &mut ColumnarWriter,
        known: &mut PathColumns,
        entry: &FieldEntry,
        place: Place,
        path: &str,
        text: &str,
    ) -> Result<(), ColumnError>
        requires tokenizer { IsKnown (Z.knows self.now.analyzers.now) entry.now }
        requires texts { CanRecordTexts self.now.schema.now self.now.row path.now columns.old
            × IsColumnOf place.column path.now Str columns.old }
        requires known { IsKnownAt known.old place.number path.now columns.old }
        ensures recorded { OnOk result (columns.new ≡ with_values self.now.row (values_under path.now (model.fast_texts
            (Z.tokens_of self.now.analyzers.now) (model.column_tokenizer entry.now) text.now)) columns.old) }
        ensures under_way { AreUnderWay self.now.schema.now (self.now.row + 1) columns.new }
        ensures known { OnOk result (IsKnownStill known.old known.new columns.new) }
    {
        let Some(tokenizer) = column_tokenizer(entry) else {
            return put_text(columns, known, self.row, place, path, text);
        };
        let mut tokens = Tokens::new(self.alloc);
        self.analyzers
            .tokens(self.alloc, tokenizer, text, &mut tokens)?;
        self.record_tokens(columns, known, place, path, tokens.as_slice())
    }

    /// Records the text of each token.
    fn record_tokens(
        &self,
        columns: &mut ColumnarWriter,
        known: &mut PathColumns,
        place: Place,
        path: &str,
        tokens: &[Token],
    ) -> Result<(), ColumnError>
        requires texts { CanRecordTexts self.now.schema.now self.now.row path.now columns.old }
        requires column { IsColumnOf place.column path.now Str columns.old }
        requires known { IsKnownAt known.old place.number path.now columns.old }
        ensures recorded { OnOk result (columns.new ≡ with_values self.now.row (values_under path.now
            (model.token_texts tokens.now)) columns.old) }
        ensures under_way { AreUnderWay self.now.schema.now (self.now.row + 1) columns.new }
        ensures known { OnOk result (IsKnownStill known.old known.new columns.new) }
    {
        for token in tokens {
            put_text(columns, known, self.row, place, path, token.text.as_str())?;
        }
        Ok(())
    }
}

/// A moment cut as its field has it, at a level below the first object.
fn cut(entry: &FieldEntry, level: u32, moment: DateTime) -> DateTime
    ensures { result ≡ cut_at entry.now level moment }
{
    match entry.kind {
        FieldKind::Json if level == 0 => moment.truncate(DateTimePrecision::Seconds),
        FieldKind::Json => moment,
        _ => moment.truncate(entry.precision),
    }
}

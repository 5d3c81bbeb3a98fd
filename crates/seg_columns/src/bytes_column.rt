//! Columns of bytes.
ghost use Rattle.std.specs.Prelude.{◌≡◌, Some, None, [], length, slice_get, IfOk, IfErr, OnErr, MatchBool, MatchResult};
ghost use Rattle.seg_columns.specs.Refusals.{Refuses};
ghost use Rattle.seg_columns.specs.TermColumns.{IsBytesColumn, UsesEach, term_column_of};

use crate::column::Column;
use crate::dictionary::Dictionary;
use crate::error::ColumnError;
use crate::term_column::TermColumn;
use seg_common::OwnedBytes;
use std::alloc::Global;
use std::marker::Model;

/// The values of each document in one column, each by its place among the distinct values in byte order. It is seen as
/// these ordinals and the distinct values.
#[derive(Drop)]
pub struct BytesColumn {
    column: TermColumn,
}

impl Model for BytesColumn {
    ghost use Rattle.seg_columns.specs.TermColumns.{TermColumn};

    ghost Value = { TermColumn };

    ghost view = { λ c. c.column };
}

impl BytesColumn {
    /// Checks the bytes whole, in time linear in them. It takes a byte for each distinct value, and gives them back.
    pub fn open(
        alloc: Global,
        bytes: &OwnedBytes,
        num_docs: u32,
    ) -> Result<BytesColumn, ColumnError>
        ensures { MatchResult result (λ c. IsBytesColumn num_docs bytes.now × (c ≡ term_column_of num_docs bytes.now))
            (Refuses (IsBytesColumn num_docs bytes.now)) }
    {
        match TermColumn::open(alloc, bytes, num_docs) {
            Ok(column) => Ok(BytesColumn { column }),
            Err(error) => Err(error),
        }
    }

    /// The column that has these bytes, which were checked before.
    pub fn of_checked(bytes: &OwnedBytes, num_docs: u32) -> BytesColumn
        requires { IsBytesColumn num_docs bytes.now }
        ensures { result ≡ term_column_of num_docs bytes.now }
    {
        BytesColumn {
            column: TermColumn::of_checked(bytes, num_docs),
        }
    }

    /// What the bytes were checked for: ordinals are places of distinct values, and each of these is used.
    pub fn uses_each(&self)
        ensures { UsesEach (length self.now.terms) self.now.ords }
    {
        self.column.uses_each();
    }

    /// How many distinct values there are.
    pub fn num_terms(&self) -> usize
        ensures { result ≡ length self.now.terms }
    {
        self.column.dictionary().num_terms()
    }

    /// Copies the distinct value at a place into `out`, in place of what it held; nothing and `false` where there is no
    /// such place, and nothing when out of memory.
    pub fn ord_to_bytes(&self, ord: u64, out: &mut Vec<u8>) -> Result<bool, ColumnError>
        ensures ok { IfOk result (λ found. MatchBool found (slice_get self.now.terms ord ≡ Some out.new.items)
            ((slice_get self.now.terms ord ≡ None) × (out.new.items ≡ []))) }
        ensures err { IfErr result (λ e. e ≡ ColumnError.OutOfMemory) }
        ensures cleared { OnErr result (out.new.items ≡ []) }
    {
        out.clear();
        match self.column.dictionary().ord_to_term(ord) {
            Some(term) => {
                out.extend_from_slice(term)?;
                Ok(true)
            }
            None => Ok(false),
        }
    }

    /// The ordinals of each document's values.
    pub fn ords(&self) -> &Column<u64>
        ensures { result.now ≡ self.now.ords }
    {
        self.column.ords()
    }

    /// The distinct values.
    pub fn dictionary(&self) -> &Dictionary
        ensures { result.now ≡ self.now.terms }
    {
        self.column.dictionary()
    }
}

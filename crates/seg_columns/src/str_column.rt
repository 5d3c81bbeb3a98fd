//! Columns of texts.
ghost use Rattle.std.specs.Prelude.{◌≡◌, Some, None, [], All, IsUtf8, length, slice_get, string_bytes, IfOk, IfErr, OnErr, MatchBool, MatchOption, MatchResult};
ghost use Rattle.seg_columns.specs.Refusals.{Refuses};
ghost use Rattle.seg_columns.specs.TermColumns.{IsStrColumn, UsesEach, term_column_of};

use crate::column::Column;
use crate::dictionary::Dictionary;
use crate::error::ColumnError;
use crate::term_column::TermColumn;
use seg_common::OwnedBytes;
use std::alloc::Global;
use std::marker::Model;

/// The texts of each document in one column, each by its place among the distinct texts in byte order. It is seen as
/// these ordinals and the distinct texts.
#[derive(Drop)]
pub struct StrColumn {
    column: TermColumn,
}

impl Model for StrColumn {
    ghost use Rattle.std.specs.Prelude.{All, IsUtf8};
    ghost use Rattle.seg_columns.specs.TermColumns.{TermColumn};

    ghost Value = { TermColumn };

    ghost view = { λ c. c.column };

    ghost invariant = { λ c. All IsUtf8 c.column.terms };
}

impl StrColumn {
    /// Checks the bytes whole, in time linear in them. It takes a byte for each distinct text, and gives them back.
    pub fn open(alloc: Global, bytes: &OwnedBytes, num_docs: u32) -> Result<StrColumn, ColumnError>
        ensures { MatchResult result (λ c. IsStrColumn num_docs bytes.now × (c ≡ term_column_of num_docs bytes.now))
            (Refuses (IsStrColumn num_docs bytes.now)) }
    {
        let column = match TermColumn::open(alloc, bytes, num_docs) {
            Ok(column) => column,
            Err(error) => return Err(error),
        };
        if !are_utf8(column.dictionary()) {
            return Err(ColumnError::Malformed);
        }
        Ok(StrColumn { column })
    }

    /// The column that has these bytes, which were checked before.
    pub fn of_checked(bytes: &OwnedBytes, num_docs: u32) -> StrColumn
        requires { IsStrColumn num_docs bytes.now }
        ensures { result ≡ term_column_of num_docs bytes.now }
    {
        StrColumn {
            column: TermColumn::of_checked(bytes, num_docs),
        }
    }

    /// What the bytes were checked for: ordinals are places of distinct texts, and each of these is used.
    pub fn uses_each(&self)
        ensures { UsesEach (length self.now.terms) self.now.ords }
    {
        self.column.uses_each();
    }

    /// How many distinct texts there are.
    pub fn num_terms(&self) -> usize
        ensures { result ≡ length self.now.terms }
    {
        self.column.dictionary().num_terms()
    }

    /// Copies the distinct text at a place into `out`, in place of what it held; nothing and `false` where there is no
    /// such place, and nothing when out of memory.
    pub fn ord_to_str(&self, ord: u64, out: &mut String) -> Result<bool, ColumnError>
        ensures ok { IfOk result (λ found. MatchBool found (slice_get self.now.terms ord ≡ Some (string_bytes out.new))
            ((slice_get self.now.terms ord ≡ None) × (string_bytes out.new ≡ []))) }
        ensures err { IfErr result (λ e. e ≡ ColumnError.OutOfMemory) }
        ensures cleared { OnErr result (string_bytes out.new ≡ []) }
    {
        out.clear();
        match self.text(ord) {
            Some(text) => {
                out.push_str(text)?;
                Ok(true)
            }
            None => Ok(false),
        }
    }

    /// The ordinals of each document's texts.
    pub fn ords(&self) -> &Column<u64>
        ensures { result.now ≡ self.now.ords }
    {
        self.column.ords()
    }

    /// The distinct texts.
    pub fn dictionary(&self) -> &Dictionary
        ensures { result.now ≡ self.now.terms }
    {
        self.column.dictionary()
    }

    /// The distinct text at a place, from the file's bytes.
    pub fn text(&self, ord: u64) -> Option<&str>
        ensures { MatchOption result (slice_get self.now.terms ord ≡ None)
            (λ text. slice_get self.now.terms ord ≡ Some text.now) }
    {
        let term = self.column.dictionary().ord_to_term(ord)?;
        match str::from_utf8(term) {
            Ok(text) => Some(text),
            Err(_) => unreachable!(),
        }
    }
}

/// Whether each term is a text.
fn are_utf8(dictionary: &Dictionary) -> bool
    ensures { MatchBool result (All IsUtf8 dictionary.now) (All IsUtf8 dictionary.now → ⊥) }
{
    for place in 0..dictionary.num_terms() {
        if !is_utf8(dictionary.term(place)) {
            return false;
        }
    }
    true
}

fn is_utf8(bytes: &[u8]) -> bool
    ensures { MatchBool result (IsUtf8 bytes.now) (IsUtf8 bytes.now → ⊥) }
{
    match str::from_utf8(bytes) {
        Ok(_) => true,
        Err(_) => false,
    }
}

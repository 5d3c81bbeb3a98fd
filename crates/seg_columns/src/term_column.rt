//! Columns of ordinals with the dictionary whose places they are.
ghost use Rattle.std.specs.Prelude.{◌≡◌, ◌≤◌, length, take, drop, MatchOption, MatchResult};
ghost use Rattle.seg_columns.specs.Columns.{IsColumn};
ghost use Rattle.seg_columns.specs.ValueImages.{unsigned};
ghost use Rattle.seg_columns.specs.Refusals.{Refuses};
ghost use Rattle.seg_columns.specs.TermColumns.{IsBytesColumn, UsesEach, ordinals_in, dictionary_in, term_column_of};

use crate::column::Column;
use crate::dictionary::Dictionary;
use crate::ends::{END_BYTES, start_at};
use crate::error::ColumnError;
use crate::used_ordinals::uses_each;
use seg_common::OwnedBytes;
use std::alloc::Global;
use std::marker::Model;

/// The ordinals of each document's values, and the terms in byte order.
#[derive(Drop)]
pub(crate) struct TermColumn {
    ords: Column<u64>,
    dictionary: Dictionary,
}

impl Model for TermColumn {
    ghost use Rattle.std.specs.Prelude.{length};
    ghost use Rattle.seg_columns.specs.TermColumns as spec;

    ghost Value = { spec.TermColumn };

    ghost view = { λ c. record { terms = c.dictionary; ords = c.ords } };

    ghost invariant = { λ c. spec.UsesEach (length c.dictionary) c.ords };
}

impl TermColumn {
    /// Checks the bytes whole, in time linear in them. It takes a byte for each term, and gives them back.
    pub(crate) fn open(
        alloc: Global,
        bytes: &OwnedBytes,
        num_docs: u32,
    ) -> Result<TermColumn, ColumnError>
        ensures { MatchResult result (λ c. IsBytesColumn num_docs bytes.now × (c ≡ term_column_of num_docs bytes.now))
            (Refuses (IsBytesColumn num_docs bytes.now)) }
    {
        let Some((front, back)) = parts_of(bytes, num_docs) else {
            return Err(ColumnError::Malformed);
        };
        let Some(ords) = Column::open(front, num_docs) else {
            return Err(ColumnError::Malformed);
        };
        let Some(dictionary) = Dictionary::open(back) else {
            return Err(ColumnError::Malformed);
        };
        if !uses_each(alloc, &ords, dictionary.num_terms())? {
            return Err(ColumnError::Malformed);
        }
        Ok(TermColumn { ords, dictionary })
    }

    /// The column that has these bytes, which were checked before.
    pub(crate) fn of_checked(bytes: &OwnedBytes, num_docs: u32) -> TermColumn
        requires { IsBytesColumn num_docs bytes.now }
        ensures { result ≡ term_column_of num_docs bytes.now }
    {
        let docs = num_docs as usize;
        let _length = bytes.len();
        let count = start_at(bytes.as_slice(), docs) as usize;
        let (front, back) = split(bytes, END_BYTES * docs + END_BYTES * count);
        TermColumn {
            ords: Column::of_checked(front, num_docs),
            dictionary: Dictionary::of_checked(back),
        }
    }

    /// What the bytes were checked for: ordinals are places of terms, and each term is used.
    pub(crate) fn uses_each(&self)
        ensures { UsesEach (length self.now.terms) self.now.ords }
    {
        let _ords = &self.ords;
    }

    pub(crate) fn ords(&self) -> &Column<u64>
        ensures { result.now ≡ self.now.ords }
    {
        &self.ords
    }

    /// The ordinals alone.
    pub(crate) fn into_ords(self) -> Column<u64>
        ensures { result ≡ self.ords }
    {
        self.ords
    }

    pub(crate) fn dictionary(&self) -> &Dictionary
        ensures { result.now ≡ self.now.terms }
    {
        &self.dictionary
    }
}

/// The bytes of the ordinals, and those of the dictionary.
fn parts_of(bytes: &OwnedBytes, num_docs: u32) -> Option<(OwnedBytes, OwnedBytes)>
    ensures { MatchOption result (IsColumn 8 unsigned num_docs (ordinals_in num_docs bytes.now) → ⊥)
        (λ p. (p.0 ≡ ordinals_in num_docs bytes.now) × (p.1 ≡ dictionary_in num_docs bytes.now)) }
{
    let docs = num_docs as usize;
    let words = bytes.len() / END_BYTES;
    if words < docs {
        return None;
    }
    let count = start_at(bytes.as_slice(), docs);
    if count > (words - docs) as u64 {
        return None;
    }
    Some(split(bytes, END_BYTES * docs + END_BYTES * count as usize))
}

/// The bytes before a place, and those from it on.
fn split(bytes: &OwnedBytes, cut: usize) -> (OwnedBytes, OwnedBytes)
    requires { cut ≤ length bytes.now }
    ensures front { result.0 ≡ take cut bytes.now }
    ensures back { result.1 ≡ drop cut bytes.now }
{
    (bytes.slice(0, cut), bytes.slice(cut, bytes.len()))
}

//! Metadata of a field.
ghost use Rattle.std.specs.Prelude.{◌≡◌, ◌+◌, ◌<◌, ◌≤◌, ◌^◌, ◌||◌, [], ◌∷◌, true, false, None, Some, is_some, IfErr, IfOk, IfSome, OnErr, OnOk};
ghost use Rattle.std.specs.Ordering.{nat_cmp};
ghost use Rattle.seg_field_metadata.specs.MetadataEntries.{entry_of, fits, key_cmp, key_of, known_of, size_fits, size_of, together, total, type_place};

use seg_common::ByteCount;
use seg_values::{ArgumentCause, FieldType, TResult, TantivyError};
use std::alloc::Global;
use std::cmp::Ordering;

/// What is known of the fields of a name and a type. A size is missing where there is no such part: those of the
/// dictionary, the postings and the positions are there for an indexed field, and the fast size for columns.
#[derive(Debug, PartialEq, Eq, PartialOrd, Ord, Drop)]
pub struct FieldMetadata {
    pub field_name: String,
    pub typ: FieldType,
    pub stored: bool,
    pub fast_size: Option<ByteCount>,
    pub term_dictionary_size: Option<ByteCount>,
    pub postings_size: Option<ByteCount>,
    pub positions_size: Option<ByteCount>,
}

impl FieldMetadata {
    pub fn is_indexed(&self) -> bool
        ensures { result ≡ is_some self.now.postings_size }
    {
        self.postings_size.is_some()
    }

    pub fn is_fast(&self) -> bool
        ensures { result ≡ is_some self.now.fast_size }
    {
        self.fast_size.is_some()
    }

    /// Adds what another one says about the same fields.
    pub fn merge(&mut self, other: FieldMetadata) -> TResult<()>
        requires same_key { key_of other ≡ key_of self.old }
        ensures key { key_of self.new ≡ key_of self.old }
        ensures ok { OnOk result (known_of self.new ≡ together (known_of self.old ∷ known_of other ∷ [])) }
        ensures fits { OnOk result (fits (known_of self.new) ≡ true) }
        ensures overflow { IfErr result (λ e. e ≡ TantivyError.InvalidArgument ArgumentCause.SizeOverflow) }
        ensures passes { OnErr result (fits (together (known_of self.old ∷ known_of other ∷ [])) ≡ false) }
        ensures err { OnErr result (self.new ≡ self.old) }
    {
        let Some(fast_size) = sum_of(self.fast_size, other.fast_size) else {
            return Err(overflow());
        };
        let Some(terms_size) = sum_of(self.term_dictionary_size, other.term_dictionary_size) else {
            return Err(overflow());
        };
        let Some(postings_size) = sum_of(self.postings_size, other.postings_size) else {
            return Err(overflow());
        };
        let Some(positions_size) = sum_of(self.positions_size, other.positions_size) else {
            return Err(overflow());
        };
        self.stored = is_either(self.stored, other.stored);
        self.fast_size = fast_size;
        self.term_dictionary_size = terms_size;
        self.postings_size = postings_size;
        self.positions_size = positions_size;
        Ok(())
    }

    pub fn try_clone(&self, alloc: Global) -> TResult<FieldMetadata>
        ensures ok { IfOk result (λ copy. entry_of copy ≡ entry_of self.now) }
        ensures err { IfErr result (λ e. e ≡ TantivyError.OutOfMemory) }
    {
        match String::from_str(alloc, self.field_name.as_str()) {
            Ok(field_name) => Ok(FieldMetadata {
                field_name,
                typ: self.typ,
                stored: self.stored,
                fast_size: self.fast_size,
                term_dictionary_size: self.term_dictionary_size,
                postings_size: self.postings_size,
                positions_size: self.positions_size,
            }),
            Err(_) => Err(TantivyError::OutOfMemory),
        }
    }

    /// By name and type alone.
    pub(crate) fn compare_keys(&self, other: &FieldMetadata) -> Ordering
        ensures { result ≡ key_cmp (key_of self.now) (key_of other.now) }
    {
        let by_name = self.field_name.as_str().cmp(other.field_name.as_str());
        by_name.then(compare_types(self.typ, other.typ))
    }

    pub(crate) fn sizes_are_numbers(&self)
        ensures { fits (known_of self.now) ≡ true }
    {
        is_a_number(self.fast_size);
        is_a_number(self.term_dictionary_size);
        is_a_number(self.postings_size);
        is_a_number(self.positions_size);
    }
}

fn compare_types(typ: FieldType, other: FieldType) -> Ordering
    ensures { result ≡ nat_cmp (type_place typ) (type_place other) }
{
    typ.cmp(&other)
}

fn is_either(one: bool, other: bool) -> bool
    ensures { result ≡ (one || other) }
{
    one || other
}

fn is_a_number(size: Option<ByteCount>)
    ensures { size_fits (size_of size) ≡ true }
{
    if let Some(ByteCount(size)) = size {
        let _size: u64 = size;
    }
}

fn overflow() -> TantivyError
    ensures { result ≡ TantivyError.InvalidArgument ArgumentCause.SizeOverflow }
{
    TantivyError::InvalidArgument(ArgumentCause::SizeOverflow)
}

/// The sum of the sizes that are there, unless it passes 64 bits.
fn sum_of(size: Option<ByteCount>, other: Option<ByteCount>) -> Option<Option<ByteCount>>
    ensures some { IfSome result (λ sum. size_of sum ≡ total (size_of size ∷ size_of other ∷ [])) }
    ensures fits { IfSome result (λ sum. size_fits (size_of sum) ≡ true) }
    ensures none { result ≡ None → size_fits (total (size_of size ∷ size_of other ∷ [])) ≡ false }
{
    match (size, other) {
        (Some(ByteCount(size)), Some(ByteCount(other))) => sum_of_numbers(size, other),
        (Some(size), None) => Some(Some(size)),
        (None, other) => Some(other),
    }
}

fn sum_of_numbers(size: u64, other: u64) -> Option<Option<ByteCount>>
    ensures some { IfSome result (λ sum. (size_of sum ≡ Some (size + other)) × (size + other < 2 ^ 64)) }
    ensures none { result ≡ None → 2 ^ 64 ≤ size + other }
{
    match size.checked_add(other) {
        Some(sum) => Some(Some(ByteCount(sum))),
        None => None,
    }
}

//! How much space terms of a JSON field take.
ghost use Rattle.std.specs.Prelude.{◌≡◌, ◌≤◌, true, IfOk};
ghost use Rattle.std.specs.Str.{IsUtf8};
ghost use Rattle.seg_model.specs.DocumentTerms as reading;
ghost use Rattle.seg_model.specs.Shape as shape;
ghost use Rattle.seg_postings.specs.JsonSpaces.{code_of};
ghost use Rattle.seg_postings.specs.JsonRuns.{IsRunOf};

use crate::asked_kind::type_code;
use crate::term_form::path_part;
use seg_common::{ByteCount, TermInfo};
use seg_values::{BOOL_CODE, FieldType, I64_CODE, TEXT_CODE, U64_CODE};
use std::alloc::{AllocError, Global};
use std::str;

/// The terms of a JSON field that have one path and one type: the path as it stands in their bytes, how many they are,
/// and how long their ranges of the postings and of the positions are together.
#[derive(Debug, PartialEq, Eq, Drop)]
pub struct InvertedIndexFieldSpace {
    pub field_name: String,
    pub field_type: FieldType,
    pub postings_size: ByteCount,
    pub positions_size: ByteCount,
    pub num_terms: u64,
}

impl InvertedIndexFieldSpace {
    /// Of the path and the type of a term, with ranges that go from those of the first term to those of the last.
    pub(crate) fn of_run(
        alloc: Global,
        term: &[u8],
        first: &TermInfo,
        last: &TermInfo,
        num_terms: u64,
    ) -> Result<InvertedIndexFieldSpace, AllocError>
        requires path { IsUtf8 (shape.path_part term.now) }
        requires code { shape.is_type_code (reading.type_code term.now) ≡ true }
        requires postings { first.now.postings_start ≤ last.now.postings_end }
        requires positions { first.now.positions_start ≤ last.now.positions_end }
        ensures { IfOk result (IsRunOf term.now first.now last.now num_terms) }
    {
        Ok(InvertedIndexFieldSpace {
            field_name: String::from_str(alloc, path_text(term))?,
            field_type: type_of_code(type_code(term)),
            postings_size: ByteCount(last.postings_end - first.postings_start),
            positions_size: ByteCount(last.positions_end - first.positions_start),
            num_terms,
        })
    }
}

fn path_text(term: &[u8]) -> &str
    requires { IsUtf8 (shape.path_part term.now) }
    ensures { result.now ≡ shape.path_part term.now }
{
    match str::from_utf8(path_part(term)) {
        Ok(text) => text,
        Err(_) => unreachable!(),
    }
}

fn type_of_code(code: u8) -> FieldType
    requires { shape.is_type_code code ≡ true }
    ensures { code_of result ≡ code }
{
    match code {
        TEXT_CODE => FieldType::Str,
        I64_CODE => FieldType::I64,
        U64_CODE => FieldType::U64,
        BOOL_CODE => FieldType::Bool,
        _ => FieldType::Date,
    }
}

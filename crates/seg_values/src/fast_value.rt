//! Values of fixed size, which terms of JSON fields and columns keep as numbers.
ghost use Rattle.std.specs.Prelude.{◌≡◌, ◌∷◌, [], Some};
ghost use Rattle.std.proofs.Common.{rules};
ghost use Rattle.seg_values.specs.JsonTerms.{code_bytes, coded_value, leaf_of_number};
ghost use Rattle.seg_values.specs.Tree.{Leaf, unsigned, signed, boolean, date};
ghost use Rattle.seg_values.specs.declared.field_type.FieldType.{FieldType};
ghost use Rattle.seg_values.specs.declared.field_type.FieldType.TheVariants as types;

use crate::field_type::FieldType;
use seg_common::{DateTime, DateTimePrecision, MonotonicallyMappableToU64};

/// A value that is kept as its number.
pub trait FastValue: MonotonicallyMappableToU64 {
    /// The type of the values: U64, I64, Bool or Date, as other types have no numbers.
    ghost field_type: { FieldType };

    /// The leaf that a value is.
    ghost leaf: { Self → Leaf };

    fn to_type() -> FieldType
        ensures { result ≡ field_type };

    ghost is_of_its_number: { (v : Self) → Self.fits v → leaf_of_number field_type (Self.number v) ≡ Some (leaf v) };
}

impl FastValue for u64 {
    ghost field_type = { types.U64 };

    ghost leaf = { unsigned };

    ghost is_of_its_number = { Prim.search rules };

    fn to_type() -> FieldType {
        FieldType::U64
    }
}

impl FastValue for i64 {
    ghost use Rattle.std.specs.Prelude.{Some};
    ghost use Rattle.std.proofs.Common.{ap};
    ghost use Rattle.seg_common.specs.MappableLaws.{lowered-raised};
    ghost use Rattle.seg_values.specs.Tree.{signed};
    ghost use Rattle.seg_values.specs.declared.field_type.FieldType.TheVariants as types;

    ghost field_type = { types.I64 };

    ghost leaf = { signed };

    ghost is_of_its_number = { λ v fits. ap (λ z. Some (signed z)) (lowered-raised v fits) };

    fn to_type() -> FieldType {
        FieldType::I64
    }
}

impl FastValue for bool {
    ghost field_type = { types.Bool };

    ghost leaf = { boolean };

    ghost is_of_its_number = { Prim.search rules };

    fn to_type() -> FieldType {
        FieldType::Bool
    }
}

impl FastValue for DateTime {
    ghost use Rattle.std.specs.Prelude.{Some};
    ghost use Rattle.std.proofs.Common.{ap};
    ghost use Rattle.seg_common.specs.MappableLaws.{lowered-raised};
    ghost use Rattle.seg_values.specs.Tree.{date};
    ghost use Rattle.seg_values.specs.declared.field_type.FieldType.TheVariants as types;

    ghost field_type = { types.Date };

    ghost leaf = { date };

    ghost is_of_its_number = { λ v fits. ap (λ z. Some (date z)) (lowered-raised v fits) };

    fn to_type() -> FieldType {
        FieldType::Date
    }
}

/// The type code of texts in terms of JSON fields.
pub const TEXT_CODE: u8 = b's';

pub const I64_CODE: u8 = b'i';

/// That of a u64 that no i64 is.
pub const U64_CODE: u8 = b'u';

pub const BOOL_CODE: u8 = b'o';

pub const DATE_CODE: u8 = b'd';

/// A type code, and the number after it.
#[derive(Clone, Copy)]
pub struct LeafCode {
    pub code: u8,
    pub number: u64,
}

/// The type code of a value, and the number after it: moments are cut to whole seconds, and a u64 that fits an i64 is one.
pub fn coded_leaf<T: FastValue>(value: T) -> LeafCode
    ensures { coded_value (T.leaf value) ≡ code_bytes result ∷ [] }
{
    coded_number(T::to_type(), value.to_u64())
}

/// That of the leaf that a number of a type stands for.
fn coded_number(kind: FieldType, number: u64) -> LeafCode
    ensures { (l : Leaf) → leaf_of_number kind number ≡ Some l → coded_value l ≡ code_bytes result ∷ [] }
{
    match kind {
        FieldType::U64 => match i64::try_from(number) {
            Ok(signed) => LeafCode {
                code: I64_CODE,
                number: signed.to_u64(),
            },
            Err(_) => LeafCode {
                code: U64_CODE,
                number,
            },
        },
        FieldType::Bool => LeafCode {
            code: BOOL_CODE,
            number,
        },
        FieldType::Date => LeafCode {
            code: DATE_CODE,
            number: DateTime::from_u64(number)
                .truncate(DateTimePrecision::Seconds)
                .to_u64(),
        },
        _ => LeafCode {
            code: I64_CODE,
            number,
        },
    }
}

//! The types of fields.

use crate::schema::FieldKind;

/// The type of a field's values. They are ordered as they stand here.
#[derive(Clone, Copy, Debug, PartialEq, Eq, PartialOrd, Ord)]
pub enum FieldType {
    Bytes,
    Date,
    Facet,
    I64,
    Json,
    Bool,
    IpAddr,
    Str,
    U64,
}

impl From<FieldKind> for FieldType {
    ghost use Rattle.std.specs.Prelude.{◌≡◌};
    ghost use Rattle.seg_values.specs.FieldTypes.{type_of};

    ghost from_gives = { λ kind found. found ≡ type_of kind };

    fn from(kind: FieldKind) -> FieldType {
        match kind {
            FieldKind::Text => FieldType::Str,
            FieldKind::U64 => FieldType::U64,
            FieldKind::I64 => FieldType::I64,
            FieldKind::Bool => FieldType::Bool,
            FieldKind::Date => FieldType::Date,
            FieldKind::Facet => FieldType::Facet,
            FieldKind::Bytes => FieldType::Bytes,
            FieldKind::IpAddr => FieldType::IpAddr,
            FieldKind::Json => FieldType::Json,
        }
    }
}

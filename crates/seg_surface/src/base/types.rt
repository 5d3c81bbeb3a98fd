//! The order of types.

use crate::lines::Lines;
use seg_values::FieldType;

/// All types, in order.
const TYPES: [FieldType; 9] = [
    FieldType::Bytes,
    FieldType::Date,
    FieldType::Facet,
    FieldType::I64,
    FieldType::Json,
    FieldType::Bool,
    FieldType::IpAddr,
    FieldType::Str,
    FieldType::U64,
];

pub(crate) fn add_types(lines: &mut Lines) {
    for pair in TYPES.windows(2) {
        let (lower, upper) = (pair[0], pair[1]);
        lines.add_answer(
            "a type, another one, and whether it comes before that",
            &(lower, upper, lower < upper),
        );
    }
}

//! The space of the terms of a JSON field, by bytes that were worked out by hand.
ghost use Rattle.std.specs.Prelude.{◌≡◌, true};
ghost use Rattle.std.specs.List.{list_all};
ghost use Rattle.seg_values.specs.declared.schema.FieldKind.TheVariants as kinds;
ghost use Rattle.seg_postings.specs.OpenedFields.{dictionary_terms};
ghost use Rattle.seg_postings.specs.TermForms.{is_formed};

use super::fields::{Parts, open};
use crate::lines::Lines;
use seg_postings::InvertedIndexReader;
use seg_values::FieldKind;

/// An i64 and the texts `x` and `y` at the path `a`, and the text `x` at the path `b`.
const LEAVES: Parts<'static> = Parts {
    terms: &[
        4, 0, 0, 0, 0, 0, 0, 0, // terms
        11, 0, 0, 0, 0, 0, 0, 0, // ends of the keys
        15, 0, 0, 0, 0, 0, 0, 0, //
        19, 0, 0, 0, 0, 0, 0, 0, //
        23, 0, 0, 0, 0, 0, 0, 0, //
        97, 0, 105, 128, 0, 0, 0, 0, 0, 0, 1, // the i64 1 at `a`
        97, 0, 115, 120, // `x` at `a`
        97, 0, 115, 121, // `y` at `a`
        98, 0, 115, 120, // `x` at `b`
        4, 0, 0, 0, 0, 0, 0, 0, // infos
        0, 0, 0, 0, 0, 0, 0, 0, // start of the postings
        0, 0, 0, 0, 0, 0, 0, 0, // start of the positions
        1, 0, 0, 0, 2, 0, 0, 0, 0, 0, 0, 0, 0, 0, 0, 0, 0, 0, 0, 0, // 1 at `a`
        2, 0, 0, 0, 7, 0, 0, 0, 0, 0, 0, 0, 2, 0, 0, 0, 0, 0, 0, 0, // `x` at `a`
        1, 0, 0, 0, 10, 0, 0, 0, 0, 0, 0, 0, 3, 0, 0, 0, 0, 0, 0, 0, // `y` at `a`
        1, 0, 0, 0, 13, 0, 0, 0, 0, 0, 0, 0, 5, 0, 0, 0, 0, 0, 0, 0, // `x` at `b`
        104, 0, 0, 0, 0, 0, 0, 0, // length of the infos
        1, 0, 0, 0, // version
        3, 0, 0, 0, // type
    ],
    postings: &[
        0, 0, 0, 0, 0, 0, 0, 0, // tokens
        0, 0, // 1 at `a`: document 0
        2, 0, 1, 1, 1, // `x` at `a`: documents 0 and 1, once each
        2, 2, 1, // `y` at `a`: document 2 once
        2, 1, 2, // `x` at `b`: document 1 twice
    ],
    positions: &[
        0, 0, // `x` at `a`
        4, // `y` at `a`
        0, 2, // `x` at `b`
    ],
};

fn add_spaces(lines: &mut Lines, reader: &InvertedIndexReader)
    requires { list_all (is_formed kinds.Json) (dictionary_terms reader.now) ≡ true }
{
    match reader.list_encoded_json_fields(lines.alloc()) {
        Ok(spaces) => lines.add_each("one of list_encoded_json_fields", &spaces),
        Err(_) => lines.miss(),
    }
}

pub(crate) fn add_json_spaces(lines: &mut Lines) {
    lines.add(
        "## JSON field: an i64 and the texts x and y at the path a, the text x at the path b",
    );
    match open(lines.alloc(), FieldKind::Json, LEAVES) {
        Ok(reader) => add_spaces(lines, &reader),
        Err(_) => lines.miss(),
    }
}

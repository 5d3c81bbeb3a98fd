//! Facets and terms.

use crate::lines::Lines;
use seg_values::{Facet, Field, Term, ValueError};
use std::alloc::Global;

/// The path of an encoded facet.
fn path_of(alloc: Global, encoded: &str) -> Result<String, ValueError> {
    let mut facet = Facet::root(alloc);
    facet.set_encoded_str(encoded)?;
    facet.to_path_string(alloc)
}

fn add_facets(lines: &mut Lines) {
    let alloc = lines.alloc();
    lines.add_text_result(
        "path of the facet that is encoded as \"日本\\0a b\"",
        path_of(alloc, "日本\0a b"),
    );
    match Facet::from_text(alloc, "/日本/a b") {
        Ok(facet) => lines.add_answer("facet of the path /日本/a b, encoded", &facet.encoded_str()),
        Err(_) => lines.miss(),
    }
}

/// The term of the text `a` in field 3, and its copy.
fn term_and_copy(alloc: Global) -> Result<(Term, Term), ValueError> {
    let term = Term::from_field_text(alloc, Field::from_field_id(3), "a")?;
    match term.try_clone(alloc) {
        Ok(copy) => Ok((term, copy)),
        Err(_) => Err(ValueError::OutOfMemory),
    }
}

fn add_copy(lines: &mut Lines, term: &Term, copy: &Term) {
    lines.add_answer("term of the text a in field 3", term);
    lines.add_answer("copy of the term", copy);
    let are_equal = copy == term;
    lines.add_answer("whether the term and its copy are equal", &are_equal);
}

pub(crate) fn add_values(lines: &mut Lines) {
    add_facets(lines);
    match term_and_copy(lines.alloc()) {
        Ok((term, copy)) => add_copy(lines, &term, &copy),
        Err(_) => lines.miss(),
    }
}

//! What values of leaf types are read as.

use crate::lines::Lines;
use seg_access::{ReferenceValue, ReferenceValueLeaf, Value};
use seg_common::DateTime;
use seg_tokens::{PreTokenizedString, Text, Tokens};
use seg_values::Facet;
use std::alloc::{AllocError, Global};
use std::net::Ipv6Addr;

/// Adds a leaf, after the type and the value that it was read from.
fn add_leaf(lines: &mut Lines, what: &str, leaf: ReferenceValueLeaf<'_>) {
    match leaf {
        ReferenceValueLeaf::Null => lines.add_text(what, "Null"),
        ReferenceValueLeaf::Str(text) => lines.add_answer(what, &("Str", text)),
        ReferenceValueLeaf::PreTokStr(text) => {
            lines.add_answer(what, &("PreTokStr", text.text.as_str()))
        }
        ReferenceValueLeaf::U64(number) => lines.add_answer(what, &("U64", number)),
        ReferenceValueLeaf::I64(number) => lines.add_answer(what, &("I64", number)),
        ReferenceValueLeaf::Bool(truth) => lines.add_answer(what, &("Bool", truth)),
        ReferenceValueLeaf::Date(date) => lines.add_answer(what, &("Date", date)),
        ReferenceValueLeaf::Facet(text) => lines.add_answer(what, &("Facet", text)),
        ReferenceValueLeaf::Bytes(bytes) => lines.add_answer(what, &("Bytes", bytes)),
        ReferenceValueLeaf::IpAddr(address) => lines.add_answer(what, &("IpAddr", address)),
    }
}

/// Adds the leaf that a value is read as; null where it is none.
fn add_value<'a, V: Value<'a>>(lines: &mut Lines, what: &str, value: V) {
    match value.as_value() {
        ReferenceValue::Leaf(leaf) => add_leaf(lines, what, leaf),
        ReferenceValue::Array(_items) => lines.add_text(what, "Null"),
        ReferenceValue::Object(_members) => lines.add_text(what, "Null"),
    }
}

/// A text without tokens.
fn without_tokens(alloc: Global, text: &str) -> Result<PreTokenizedString, AllocError> {
    Ok(PreTokenizedString {
        text: Text::copy_of(alloc, text)?,
        tokens: Tokens::new(alloc),
    })
}

fn add_texts(lines: &mut Lines) {
    add_value(lines, "as_value of the &str a", "a");
    add_value(lines, "as_value of the &&str a", &"a");
    match String::from_str(lines.alloc(), "a") {
        Ok(text) => add_value(lines, "as_value of the &String a", &text),
        Err(_) => lines.miss(),
    }
}

fn add_marked_texts(lines: &mut Lines) {
    let alloc = lines.alloc();
    match without_tokens(alloc, "a") {
        Ok(text) => add_value(lines, "as_value of the &PreTokenizedString a", &text),
        Err(_) => lines.miss(),
    }
    match Facet::from_text(alloc, "/a/b") {
        Ok(facet) => add_value(lines, "as_value of the &Facet /a/b", &facet),
        Err(_) => lines.miss(),
    }
}

fn add_numbers(lines: &mut Lines) {
    add_value(lines, "as_value of the &u64 7", &7u64);
    add_value(lines, "as_value of the &i64 -7", &-7i64);
    add_value(lines, "as_value of the &bool true", &true);
}

fn add_moments(lines: &mut Lines) {
    let moment = DateTime::from_timestamp_nanos(1);
    add_value(lines, "as_value of the &DateTime of 1 ns", &moment);
    let address = Ipv6Addr::new(0, 0, 0, 0, 0, 0, 0, 1);
    add_value(lines, "as_value of the &Ipv6Addr ::1", &address);
}

fn list_of(alloc: Global, bytes: &[u8]) -> Result<Vec<u8>, AllocError> {
    let mut list = Vec::new(alloc);
    list.extend_from_slice(bytes)?;
    Ok(list)
}

fn add_byte_strings(lines: &mut Lines) {
    let bytes: &[u8] = b"a";
    add_value(lines, "as_value of the &[u8] a", bytes);
    add_value(lines, "as_value of the &&[u8] a", &bytes);
    match list_of(lines.alloc(), bytes) {
        Ok(list) => add_value(lines, "as_value of the &Vec<u8> a", &list),
        Err(_) => lines.miss(),
    }
}

pub(crate) fn add_leaves(lines: &mut Lines) {
    add_texts(lines);
    add_marked_texts(lines);
    add_numbers(lines);
    add_moments(lines);
    add_byte_strings(lines);
}

//! The bytes of stored documents, by the bytes of a store that were worked out by hand.

use super::alive::set;
use super::stores::open;
use crate::lines::Lines;
use seg_bits::ReadOnlyBitSet;
use seg_store::StoreReader;

/// The documents of the texts a, b and c in field 0, of which a and b are one block, and c is another.
const STORE: [u8; 80] = [
    1, 0, 1, 1, 97, // a
    1, 0, 1, 1, 98, // b
    5, 0, 0, 0, 0, 0, 0, 0, // end of a
    10, 0, 0, 0, 0, 0, 0, 0, // end of b
    2, 0, 0, 0, // documents
    1, 0, 1, 1, 99, // c
    5, 0, 0, 0, 0, 0, 0, 0, // end of c
    1, 0, 0, 0, // documents
    2, 0, 0, 0, // documents up to the end of the first block
    30, 0, 0, 0, 0, 0, 0, 0, // bytes up to there
    3, 0, 0, 0, // documents up to the end of the second
    47, 0, 0, 0, 0, 0, 0, 0, // bytes up to there
    2, 0, 0, 0, // blocks
    3, 0, 0, 0, // documents
    0, // not compressed
];

fn add_raw(lines: &mut Lines, store: &StoreReader, alive: Option<&ReadOnlyBitSet>) {
    for document in store.iter_raw(alive) {
        lines.add_bytes("  a document", document.as_slice());
    }
}

fn add_alive(lines: &mut Lines, store: &StoreReader) {
    match set(lines.alloc(), 3, 0b101) {
        Ok(alive) => add_raw(lines, store, Some(&alive)),
        Err(_) => lines.miss(),
    }
}

pub(crate) fn add_raw_documents(lines: &mut Lines) {
    let Ok(store) = open(lines.alloc(), STORE.as_slice()) else {
        return lines.miss();
    };
    lines.add("StoreReader::iter_raw of the documents of a, b and c in field 0, all:");
    add_raw(lines, &store, None);
    lines.add(
        "StoreReader::iter_raw of the documents of a, b and c in field 0, where a and c are alive:",
    );
    add_alive(lines, &store);
}

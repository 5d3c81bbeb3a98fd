//! Documents that are read from pieces. tantivy's `DocumentDeserialize`, without visitors.
ghost use Rattle.std.specs.Prelude.{◌≡◌, [], ◌⊎◌, map, IfOk, IfErr};
ghost use Rattle.seg_values.specs.LastValues.{HasLastValues};
ghost use Rattle.seg_values.specs.Tree.{Document};
ghost use Rattle.seg_values.specs.ValueTrees.{entry_pair};
ghost use Rattle.seg_access.specs.Pieces.{document_spelling, SpellsNoDocument};

use crate::pieces::{Piece, Pieces};
use crate::value_deserialize::ValueDeserialize;
use seg_values::{Field, OwnedValue, TantivyDocument, ValueError};
use std::alloc::Global;
use std::collections::{BTreeMap, HashMap};

/// A document that pieces spell. Nothing is told of the place among the pieces after an error.
pub trait DocumentDeserialize: Sized {
    /// Whether this is what is kept of a document.
    ghost keeps: { Self → Document → Type 0 };

    /// Reads pairs to the end of the pieces, each a field and then its value.
    fn from_pieces(alloc: Global, pieces: &mut Pieces) -> Result<Self, ValueError>
        ensures ok { IfOk result (λ kept. (d : Document) × (pieces.old ≡ document_spelling d) × keeps kept d) }
        ensures end { IfOk result (λ _. pieces.new ≡ []) }
        ensures err { IfErr result (λ e. (e ≡ ValueError.OutOfMemory)
            ⊎ ((e ≡ ValueError.Malformed) × SpellsNoDocument pieces.old)) };
}

impl DocumentDeserialize for TantivyDocument {
    ghost keeps = { λ kept d. kept ≡ d };

    fn from_pieces(alloc: Global, pieces: &mut Pieces) -> Result<TantivyDocument, ValueError> {
        let document = document_from(alloc, pieces)?;
        Ok(document)
    }
}

/// A repeated field keeps its last value.
impl DocumentDeserialize for BTreeMap<Field, OwnedValue> {
    ghost keeps = { λ kept d. HasLastValues (map entry_pair kept.entries) d };

    fn from_pieces(
        alloc: Global,
        pieces: &mut Pieces,
    ) -> Result<BTreeMap<Field, OwnedValue>, ValueError> {
        let document = document_from(alloc, pieces)?;
        let map = document.into_btree_map(alloc)?;
        Ok(map)
    }
}

/// A repeated field keeps its last value.
impl DocumentDeserialize for HashMap<Field, OwnedValue> {
    ghost keeps = { λ kept d. HasLastValues (map entry_pair kept.entries) d };

    fn from_pieces(
        alloc: Global,
        pieces: &mut Pieces,
    ) -> Result<HashMap<Field, OwnedValue>, ValueError> {
        let document = document_from(alloc, pieces)?;
        let map = document.into_hash_map(alloc)?;
        Ok(map)
    }
}

/// Reads pairs to the end of the pieces.
fn document_from(alloc: Global, pieces: &mut Pieces) -> Result<TantivyDocument, ValueError>
    ensures ok { IfOk result (λ d. pieces.old ≡ document_spelling d) }
    ensures end { IfOk result (λ _. pieces.new ≡ []) }
    ensures err { IfErr result (λ e. (e ≡ ValueError.OutOfMemory)
        ⊎ ((e ≡ ValueError.Malformed) × SpellsNoDocument pieces.old)) }
{
    let mut document = TantivyDocument::new(alloc);
    while let Some(piece) = pieces.take_next() {
        let Piece::FieldOf(field) = piece else {
            return Err(ValueError::Malformed);
        };
        document.add_field_value(field, OwnedValue::from_pieces(alloc, pieces)?)?;
    }
    Ok(document)
}

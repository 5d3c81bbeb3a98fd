//! JSON values, read from pieces.
ghost use Rattle.std.specs.Prelude.{◌≡◌, ◌++◌, ◌⊎◌, map, IfOk, IfErr};
ghost use Rattle.seg_values.specs.Tree.{trees_from, members_from};
ghost use Rattle.seg_access.specs.JsonTrees.{tree_of_json};
ghost use Rattle.seg_access.specs.Pieces.{json_mark, spelling, spellings, member_spellings, tree_count, member_count, SpellsNone, SpellsNoValues, SpellsNoMembers};

use crate::json_value::{JsonMembers, JsonValue, JsonValues};
use crate::pieces::{Piece, Pieces};
use crate::value_deserialize::ValueDeserialize;
use seg_values::ValueError;
use std::alloc::Global;

impl ValueDeserialize for JsonValue {
    ghost seen = { map json_mark };

    ghost tree = { tree_of_json };

    fn from_pieces(alloc: Global, pieces: &mut Pieces) -> Result<JsonValue, ValueError> {
        read_value(alloc, pieces)
    }
}

#[cycle(reading)]
fn read_value(alloc: Global, pieces: &mut Pieces) -> Result<JsonValue, ValueError>
    ensures ok { IfOk result (λ v. map json_mark pieces.old ≡ spelling (tree_of_json v) ++ map json_mark pieces.new) }
    ensures err { IfErr result (λ e. (e ≡ ValueError.OutOfMemory)
        ⊎ ((e ≡ ValueError.Malformed) × SpellsNone (map json_mark pieces.old))) }
{
    let Some(piece) = pieces.take_next() else {
        return Err(ValueError::Malformed);
    };
    match piece {
        Piece::Null => Ok(JsonValue::Null),
        Piece::Str(text) => Ok(JsonValue::Str(text)),
        Piece::U64(number) => Ok(JsonValue::U64(number)),
        Piece::I64(number) => Ok(JsonValue::I64(number)),
        Piece::Bool(truth) => Ok(JsonValue::Bool(truth)),
        Piece::Array(count) => Ok(JsonValue::Array(read_values(alloc, pieces, count)?)),
        Piece::Object(count) => Ok(JsonValue::Object(read_members(alloc, pieces, count)?)),
        Piece::PreTokStr(_)
        | Piece::Date(_)
        | Piece::Facet(_)
        | Piece::Bytes(_)
        | Piece::IpAddr(_)
        | Piece::Key(_)
        | Piece::FieldOf(_) => Err(ValueError::Malformed),
    }
}

/// Reads this many values. What they take grows with the pieces that are there, and not with the count that is told.
#[cycle(reading)]
fn read_values(alloc: Global, pieces: &mut Pieces, count: u64) -> Result<JsonValues, ValueError>
    ensures count { IfOk result (λ vs. tree_count (trees_from vs) ≡ count) }
    ensures ok { IfOk result (λ vs. map json_mark pieces.old ≡ spellings (trees_from vs) ++ map json_mark pieces.new) }
    ensures err { IfErr result (λ e. (e ≡ ValueError.OutOfMemory)
        ⊎ ((e ≡ ValueError.Malformed) × SpellsNoValues count (map json_mark pieces.old))) }
{
    let mut values = JsonValues::new(alloc);
    for _ in 0..count {
        values.push(read_value(alloc, pieces)?)?;
    }
    Ok(values)
}

#[cycle(reading)]
fn read_members(alloc: Global, pieces: &mut Pieces, count: u64) -> Result<JsonMembers, ValueError>
    ensures count { IfOk result (λ ms. member_count (members_from ms) ≡ count) }
    ensures ok { IfOk result (λ ms. map json_mark pieces.old
        ≡ member_spellings (members_from ms) ++ map json_mark pieces.new) }
    ensures err { IfErr result (λ e. (e ≡ ValueError.OutOfMemory)
        ⊎ ((e ≡ ValueError.Malformed) × SpellsNoMembers count (map json_mark pieces.old))) }
{
    let mut members = JsonMembers::new(alloc);
    for _ in 0..count {
        let Some(key) = pieces.take_key() else {
            return Err(ValueError::Malformed);
        };
        members.push(key, read_value(alloc, pieces)?)?;
    }
    Ok(members)
}

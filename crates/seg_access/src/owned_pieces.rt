//! Owned values, read from pieces.
ghost use Rattle.std.specs.Prelude.{◌≡◌, ◌++◌, ◌⊎◌, IfOk, IfErr};
ghost use Rattle.seg_values.specs.Tree.{trees_from, members_from};
ghost use Rattle.seg_values.specs.ValueTrees.{tree_of};
ghost use Rattle.seg_access.specs.Pieces.{spelling, spellings, member_spellings, tree_count, member_count, SpellsNone, SpellsNoValues, SpellsNoMembers};

use crate::pieces::{Piece, Pieces};
use crate::value_deserialize::ValueDeserialize;
use seg_values::{Members, OwnedValue, ValueError, Values};
use std::alloc::Global;

impl ValueDeserialize for OwnedValue {
    ghost seen = { λ marks. marks };

    ghost tree = { tree_of };

    fn from_pieces(alloc: Global, pieces: &mut Pieces) -> Result<OwnedValue, ValueError> {
        read_value(alloc, pieces)
    }
}

#[cycle(reading)]
fn read_value(alloc: Global, pieces: &mut Pieces) -> Result<OwnedValue, ValueError>
    ensures ok { IfOk result (λ v. pieces.old ≡ spelling (tree_of v) ++ pieces.new) }
    ensures err { IfErr result (λ e. (e ≡ ValueError.OutOfMemory)
        ⊎ ((e ≡ ValueError.Malformed) × SpellsNone pieces.old)) }
{
    let Some(piece) = pieces.take_next() else {
        return Err(ValueError::Malformed);
    };
    match piece {
        Piece::Null => Ok(OwnedValue::Null),
        Piece::Str(text) => Ok(OwnedValue::Str(text)),
        Piece::PreTokStr(text) => Ok(OwnedValue::PreTokStr(text)),
        Piece::U64(number) => Ok(OwnedValue::U64(number)),
        Piece::I64(number) => Ok(OwnedValue::I64(number)),
        Piece::Bool(truth) => Ok(OwnedValue::Bool(truth)),
        Piece::Date(date) => Ok(OwnedValue::Date(date)),
        Piece::Facet(facet) => Ok(OwnedValue::Facet(facet)),
        Piece::Bytes(bytes) => Ok(OwnedValue::Bytes(bytes)),
        Piece::IpAddr(address) => Ok(OwnedValue::IpAddr(address)),
        Piece::Array(count) => Ok(OwnedValue::Array(read_values(alloc, pieces, count)?)),
        Piece::Object(count) => Ok(OwnedValue::Object(read_members(alloc, pieces, count)?)),
        Piece::Key(_) | Piece::FieldOf(_) => Err(ValueError::Malformed),
    }
}

/// Reads this many values. What they take grows with the pieces that are there, and not with the count that is told.
#[cycle(reading)]
fn read_values(alloc: Global, pieces: &mut Pieces, count: u64) -> Result<Values, ValueError>
    ensures count { IfOk result (λ vs. tree_count (trees_from vs) ≡ count) }
    ensures ok { IfOk result (λ vs. pieces.old ≡ spellings (trees_from vs) ++ pieces.new) }
    ensures err { IfErr result (λ e. (e ≡ ValueError.OutOfMemory)
        ⊎ ((e ≡ ValueError.Malformed) × SpellsNoValues count pieces.old)) }
{
    let mut values = Values::new(alloc);
    for _ in 0..count {
        values.push(read_value(alloc, pieces)?)?;
    }
    Ok(values)
}

#[cycle(reading)]
fn read_members(alloc: Global, pieces: &mut Pieces, count: u64) -> Result<Members, ValueError>
    ensures count { IfOk result (λ ms. member_count (members_from ms) ≡ count) }
    ensures ok { IfOk result (λ ms. pieces.old ≡ member_spellings (members_from ms) ++ pieces.new) }
    ensures err { IfErr result (λ e. (e ≡ ValueError.OutOfMemory)
        ⊎ ((e ≡ ValueError.Malformed) × SpellsNoMembers count pieces.old)) }
{
    let mut members = Members::new(alloc);
    for _ in 0..count {
        let Some(key) = pieces.take_key() else {
            return Err(ValueError::Malformed);
        };
        members.push(key, read_value(alloc, pieces)?)?;
    }
    Ok(members)
}

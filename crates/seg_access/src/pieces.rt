//! Pieces that spell a value.
ghost use Rattle.std.specs.Prelude.{◌≡◌, [], ◌∷◌, map, MatchOption};

use seg_common::DateTime;
use seg_tokens::{Bytes, PreTokenizedString, Text};
use seg_values::{Facet, Field};
use std::marker::Model;
use std::net::Ipv6Addr;

/// A piece of a value: a leaf, the head of an array or an object, a key, or a field of a document.
#[derive(Drop)]
pub enum Piece {
    Null,
    Str(Text),
    PreTokStr(PreTokenizedString),
    U64(u64),
    I64(i64),
    Bool(bool),
    Date(DateTime),
    Facet(Facet),
    Bytes(Bytes),
    IpAddr(Ipv6Addr),
    /// This many values follow.
    Array(u64),
    /// This many keys follow, each with its value after it.
    Object(u64),
    Key(Text),
    FieldOf(Field),
}

/// Pieces, and a place among them: those before it were read. It is seen as what the pieces from there on say.
#[derive(Drop)]
pub struct Pieces {
    /// The last piece first.
    left: Vec<Piece>,
}

impl Model for Pieces {
    ghost use Rattle.std.specs.Prelude.{List, map, reverse};
    ghost use Rattle.std.specs.Coded.{coded_list};
    ghost use Rattle.seg_access.specs.Pieces.{Mark, mark_of};
    ghost use Rattle.seg_access.specs.MarkCodes.{mark_code};

    ghost Value = { List Mark };

    ghost coded = { coded_list mark_code };

    ghost view = { λ s. map mark_of (reverse s.left.items) };
}

impl Pieces {
    ghost use Rattle.seg_access.specs.Pieces.{mark_of, key, SpellsNoKey};

    /// The pieces, none of which was read.
    pub fn new(pieces: Vec<Piece>) -> Pieces
        ensures { result ≡ map mark_of pieces.items }
    {
        let mut left = pieces;
        left.reverse();
        Pieces { left }
    }

    /// Reads the next piece. There is none at the end.
    pub fn take_next(&mut self) -> Option<Piece>
        ensures { MatchOption result
            ((self.old ≡ []) × (self.new ≡ []))
            (λ piece. self.old ≡ mark_of piece ∷ self.new) }
    {
        self.left.pop()
    }

    /// Reads the next piece, which is to be a key.
    pub(crate) fn take_key(&mut self) -> Option<Text>
        ensures { MatchOption result (SpellsNoKey self.old) (λ text. self.old ≡ key text ∷ self.new) }
    {
        let Some(piece) = self.take_next() else {
            return None;
        };
        let Piece::Key(text) = piece else {
            return None;
        };
        Some(text)
    }
}

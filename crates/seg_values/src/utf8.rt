//! Texts are UTF-8 by their type, and a walk over a value says so of each text in it.
ghost use Rattle.std.specs.Prelude.{IsUtf8};
ghost use Rattle.seg_values.specs.Tree.{trees_from, members_from};
ghost use Rattle.seg_values.specs.Utf8Values.{IsUtf8Tree, AreUtf8Trees, AreUtf8Members, IsUtf8Document};
ghost use Rattle.seg_values.specs.ValueTrees.{tree_of};

use crate::facet::Facet;
use crate::pairs::Pairs;
use crate::value::{Members, OwnedValue, Values};

impl Facet {
    pub fn text_is_utf8(&self)
        ensures { IsUtf8 self.now }
    {
        let _text = self.encoded_str();
    }
}

impl OwnedValue {
    #[cycle(texts)]
    pub fn texts_are_utf8(&self)
        ensures { IsUtf8Tree (tree_of self.now) }
    {
        match self {
            OwnedValue::Str(text) => text.text_is_utf8(),
            OwnedValue::PreTokStr(text) => text.texts_are_utf8(),
            OwnedValue::Facet(facet) => facet.text_is_utf8(),
            OwnedValue::Array(values) => values.texts_are_utf8(),
            OwnedValue::Object(members) => members.texts_are_utf8(),
            OwnedValue::Null
            | OwnedValue::U64(_)
            | OwnedValue::I64(_)
            | OwnedValue::Bool(_)
            | OwnedValue::Date(_)
            | OwnedValue::Bytes(_)
            | OwnedValue::IpAddr(_) => (),
        }
    }
}

impl Values {
    #[cycle(texts)]
    pub fn texts_are_utf8(&self)
        ensures { AreUtf8Trees (trees_from self.now) }
    {
        for value in &self.values {
            value.texts_are_utf8();
        }
    }
}

impl Members {
    #[cycle(texts)]
    pub fn texts_are_utf8(&self)
        ensures { AreUtf8Members (members_from self.now) }
    {
        for member in &self.members {
            member.key.text_is_utf8();
            member.value.texts_are_utf8();
        }
    }
}

impl Pairs<'_> {
    pub fn texts_are_utf8(&self)
        ensures { IsUtf8Document self.now }
    {
        for at in 0..self.len() {
            let (_, value) = self.pair(at);
            value.texts_are_utf8();
        }
    }
}

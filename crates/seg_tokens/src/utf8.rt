//! Texts are UTF-8 by their type, and a walk over tokens says so of each text in them.
ghost use Rattle.std.specs.Prelude.{IsUtf8};
ghost use Rattle.seg_tokens.specs.Utf8Tokens.{AreUtf8Tokens};

use crate::text::Text;
use crate::token::{PreTokenizedString, Tokens};

impl Text {
    pub fn text_is_utf8(&self)
        ensures { IsUtf8 self.now }
    {
        let _text = self.as_str();
    }
}

impl Tokens {
    pub fn texts_are_utf8(&self)
        ensures { AreUtf8Tokens self.now }
    {
        for token in self.as_slice() {
            token.text.text_is_utf8();
        }
    }
}

impl PreTokenizedString {
    pub fn texts_are_utf8(&self)
        ensures text { IsUtf8 self.now.text }
        ensures tokens { AreUtf8Tokens self.now.tokens }
    {
        self.text.text_is_utf8();
        self.tokens.texts_are_utf8();
    }
}

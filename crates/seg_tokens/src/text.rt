//! A text and bytes, which contracts see as lists of bytes.
ghost use Rattle.std.specs.Prelude.{◌≡◌, List, ℕ, [], ◌∷◌, ◌++◌, IfOk, OnOk, OnErr, string_bytes, length};
ghost use Rattle.seg_tokens.specs.TextBytes.{text_bytes};

use arrayvec::ArrayString;
use std::alloc::{AllocError, Global};
use std::marker::Model;

/// The most bytes of a text that lies in the value itself.
const MAX_INLINE_LEN: usize = 16;

/// A text, as the list of its bytes. A copy of at most 16 bytes takes no memory besides the value.
#[derive(Debug, Drop)]
pub struct Text {
    text: Kept,
}

#[derive(Debug, Drop)]
enum Kept {
    Inline(ArrayString<MAX_INLINE_LEN>),
    Allocated(String),
}

impl Model for Text {
    ghost use Rattle.std.specs.Prelude.{List, ℕ};
    ghost use Rattle.seg_tokens.specs.TextBytes.{text_bytes};

    ghost Value = { List ℕ };

    ghost view = { λ t. text_bytes t.text };
}

impl Text {
    pub fn from_string(text: String) -> Text
        ensures { result ≡ string_bytes text }
    {
        Text {
            text: Kept::Allocated(text),
        }
    }

    pub fn copy_of(alloc: Global, text: &str) -> Result<Text, AllocError>
        ensures { IfOk result (λ t. t ≡ text.now) }
    {
        let text = match ArrayString::from(text) {
            Ok(inline) => Kept::Inline(inline),
            Err(_) => Kept::Allocated(String::from_str(alloc, text)?),
        };
        Ok(Text { text })
    }

    #[inline]
    pub fn len(&self) -> usize
        ensures { result ≡ length self.now }
    {
        match &self.text {
            Kept::Inline(text) => text.len(),
            Kept::Allocated(text) => text.len(),
        }
    }

    #[inline]
    pub fn as_str(&self) -> &str
        ensures { result.now ≡ self.now }
    {
        match &self.text {
            Kept::Inline(text) => text.as_str(),
            Kept::Allocated(text) => text.as_str(),
        }
    }

    #[inline]
    pub fn as_bytes(&self) -> &[u8]
        ensures { result.now ≡ self.now }
    {
        self.as_str().as_bytes()
    }
}

/// Bytes, as a list.
#[derive(Debug, Drop)]
pub struct Bytes {
    bytes: Vec<u8>,
}

impl Model for Bytes {
    ghost Value = { List ℕ };

    ghost view = { λ t. t.bytes.items };
}

impl Bytes {
    pub fn from_vec(bytes: Vec<u8>) -> Bytes
        ensures { result ≡ bytes.items }
    {
        Bytes { bytes }
    }

    pub fn as_slice(&self) -> &[u8]
        ensures { result.now ≡ self.now }
    {
        &self.bytes
    }
}

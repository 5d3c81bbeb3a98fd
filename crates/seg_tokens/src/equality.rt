//! Equality of texts, bytes and tokens: where what contracts see of them is equal.
ghost use Rattle.std.specs.Prelude.{◌≡◌, ◌↔◌, IsTrue};
ghost use Rattle.std.specs.Coded.{coded_list};
ghost use Rattle.seg_tokens.specs.TokenCodes.{key_code, token_code, pre_tokenized_code};
ghost use Rattle.seg_tokens.specs.CodeEquality.{same_by, same_partial_equivalence, same_equivalence};

use crate::text::{Bytes, Text};
use crate::token::{PreTokenizedString, Token, Tokens};

impl PartialEq for Text {
    ghost eq = { same_by key_code };

    ghost laws = { same_partial_equivalence key_code };

    fn eq(&self, other: &Text) -> bool
        ensures same { IsTrue result ↔ (self.now ≡ other.now) }
        ensures value { result ≡ same_by key_code self.now other.now }
    {
        self.as_str() == other.as_str()
    }
}

impl Eq for Text {
    ghost laws = { same_equivalence key_code };
}

impl PartialEq for Bytes {
    ghost eq = { same_by key_code };

    ghost laws = { same_partial_equivalence key_code };

    fn eq(&self, other: &Bytes) -> bool
        ensures same { IsTrue result ↔ (self.now ≡ other.now) }
        ensures value { result ≡ same_by key_code self.now other.now }
    {
        self.as_slice() == other.as_slice()
    }
}

impl Eq for Bytes {
    ghost laws = { same_equivalence key_code };
}

impl PartialEq for Token {
    ghost eq = { same_by token_code };

    ghost laws = { same_partial_equivalence token_code };

    fn eq(&self, other: &Token) -> bool
        ensures same { IsTrue result ↔ (self.now ≡ other.now) }
        ensures value { result ≡ same_by token_code self.now other.now }
    {
        self.offset_from == other.offset_from
            && self.offset_to == other.offset_to
            && self.position == other.position
            && self.position_length == other.position_length
            && self.text == other.text
    }
}

impl Eq for Token {
    ghost laws = { same_equivalence token_code };
}

impl PartialEq for Tokens {
    ghost eq = { same_by (coded_list token_code) };

    ghost laws = { same_partial_equivalence (coded_list token_code) };

    fn eq(&self, other: &Tokens) -> bool
        ensures same { IsTrue result ↔ (self.now ≡ other.now) }
        ensures value { result ≡ same_by (coded_list token_code) self.now other.now }
    {
        self.as_slice() == other.as_slice()
    }
}

impl Eq for Tokens {
    ghost laws = { same_equivalence (coded_list token_code) };
}

impl PartialEq for PreTokenizedString {
    ghost eq = { same_by pre_tokenized_code };

    ghost laws = { same_partial_equivalence pre_tokenized_code };

    fn eq(&self, other: &PreTokenizedString) -> bool
        ensures same { IsTrue result ↔ (self.now ≡ other.now) }
        ensures value { result ≡ same_by pre_tokenized_code self.now other.now }
    {
        self.text == other.text && self.tokens == other.tokens
    }
}

impl Eq for PreTokenizedString {
    ghost laws = { same_equivalence pre_tokenized_code };
}

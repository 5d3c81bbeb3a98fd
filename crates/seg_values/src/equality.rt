//! Equality of facets, terms, values and documents: where what contracts see of them is equal.
ghost use Rattle.std.specs.Prelude.{◌≡◌, ◌↔◌, IsTrue};
ghost use Rattle.std.specs.Coded.{coded_list, coded×, coded_ℕ};
ghost use Rattle.seg_tokens.specs.TokenCodes.{key_code};
ghost use Rattle.seg_values.specs.ValueCodes.{term_code, tree_code};
ghost use Rattle.seg_tokens.specs.CodeEquality.{same_by, same_partial_equivalence, same_partial_equivalence_on, same_equivalence, same_equivalence_on};
ghost use Rattle.seg_values.specs.ValueTrees.{tree_of, member_of};

use crate::document::TantivyDocument;
use crate::facet::Facet;
use crate::term::Term;
use crate::value::{Member, Members, OwnedValue, Values};

impl PartialEq for Facet {
    ghost eq = { same_by key_code };

    ghost laws = { same_partial_equivalence key_code };

    fn eq(&self, other: &Facet) -> bool
        ensures same { IsTrue result ↔ (self.now ≡ other.now) }
        ensures value { result ≡ same_by key_code self.now other.now }
    {
        self.encoded_str() == other.encoded_str()
    }
}

impl Eq for Facet {
    ghost laws = { same_equivalence key_code };
}

impl PartialEq for Term {
    ghost eq = { same_by term_code };

    ghost laws = { same_partial_equivalence term_code };

    fn eq(&self, other: &Term) -> bool
        ensures same { IsTrue result ↔ (self.now ≡ other.now) }
        ensures value { result ≡ same_by term_code self.now other.now }
    {
        is_same_term(self, other)
    }
}

impl Eq for Term {
    ghost laws = { same_equivalence term_code };
}

impl PartialEq for OwnedValue {
    ghost eq = { λ a b. same_by tree_code (tree_of a) (tree_of b) };

    ghost laws = { same_partial_equivalence_on tree_code tree_of };

    fn eq(&self, other: &OwnedValue) -> bool
        ensures same { IsTrue result ↔ (tree_of self.now ≡ tree_of other.now) }
        ensures value { result ≡ same_by tree_code (tree_of self.now) (tree_of other.now) }
    {
        is_same(self, other)
    }
}

impl Eq for OwnedValue {
    ghost laws = { same_equivalence_on tree_code tree_of };
}

impl PartialEq for Values {
    ghost eq = { same_by (coded_list tree_code) };

    ghost laws = { same_partial_equivalence (coded_list tree_code) };

    fn eq(&self, other: &Values) -> bool
        ensures same { IsTrue result ↔ (self.now ≡ other.now) }
        ensures value { result ≡ same_by (coded_list tree_code) self.now other.now }
    {
        are_same(self, other)
    }
}

impl Eq for Values {
    ghost laws = { same_equivalence (coded_list tree_code) };
}

impl PartialEq for Members {
    ghost eq = { same_by (coded_list (coded× key_code tree_code)) };

    ghost laws = { same_partial_equivalence (coded_list (coded× key_code tree_code)) };

    fn eq(&self, other: &Members) -> bool
        ensures same { IsTrue result ↔ (self.now ≡ other.now) }
        ensures value { result ≡ same_by (coded_list (coded× key_code tree_code)) self.now other.now }
    {
        are_same_members(self, other)
    }
}

impl Eq for Members {
    ghost laws = { same_equivalence (coded_list (coded× key_code tree_code)) };
}

impl PartialEq for TantivyDocument {
    ghost eq = { same_by (coded_list (coded× coded_ℕ tree_code)) };

    ghost laws = { same_partial_equivalence (coded_list (coded× coded_ℕ tree_code)) };

    fn eq(&self, other: &TantivyDocument) -> bool
        ensures same { IsTrue result ↔ (self.now ≡ other.now) }
        ensures value { result ≡ same_by (coded_list (coded× coded_ℕ tree_code)) self.now other.now }
    {
        are_same_pairs(self, other)
    }
}

impl Eq for TantivyDocument {
    ghost laws = { same_equivalence (coded_list (coded× coded_ℕ tree_code)) };
}

fn is_same_term(a: &Term, b: &Term) -> bool
    ensures { IsTrue result ↔ (a.now ≡ b.now) }
{
    a.field() == b.field() && a.serialized_value_bytes() == b.serialized_value_bytes()
}

fn are_same_pairs(a: &TantivyDocument, b: &TantivyDocument) -> bool
    ensures { IsTrue result ↔ (a.now ≡ b.now) }
{
    if a.len() != b.len() {
        return false;
    }
    for at in 0..a.len() {
        if a.pair(at) != b.pair(at) {
            return false;
        }
    }
    true
}

#[cycle(equality)]
fn is_same(a: &OwnedValue, b: &OwnedValue) -> bool
    ensures { IsTrue result ↔ (tree_of a.now ≡ tree_of b.now) }
{
    match (a, b) {
        (OwnedValue::Null, OwnedValue::Null) => true,
        (OwnedValue::Str(x), OwnedValue::Str(y)) => x == y,
        (OwnedValue::PreTokStr(x), OwnedValue::PreTokStr(y)) => x == y,
        (OwnedValue::U64(x), OwnedValue::U64(y)) => x == y,
        (OwnedValue::I64(x), OwnedValue::I64(y)) => x == y,
        (OwnedValue::Bool(x), OwnedValue::Bool(y)) => x == y,
        (OwnedValue::Date(x), OwnedValue::Date(y)) => x == y,
        (OwnedValue::Facet(x), OwnedValue::Facet(y)) => x == y,
        (OwnedValue::Bytes(x), OwnedValue::Bytes(y)) => x == y,
        (OwnedValue::IpAddr(x), OwnedValue::IpAddr(y)) => x == y,
        (OwnedValue::Array(x), OwnedValue::Array(y)) => are_same(x, y),
        (OwnedValue::Object(x), OwnedValue::Object(y)) => are_same_members(x, y),
        _ => false,
    }
}

#[cycle(equality)]
fn are_same(a: &Values, b: &Values) -> bool
    ensures { IsTrue result ↔ (a.now ≡ b.now) }
{
    if a.len() != b.len() {
        return false;
    }
    for (at, x) in a.values.iter().enumerate() {
        if !is_same(x, &b.values[at]) {
            return false;
        }
    }
    true
}

#[cycle(equality)]
fn are_same_members(a: &Members, b: &Members) -> bool
    ensures { IsTrue result ↔ (a.now ≡ b.now) }
{
    if a.len() != b.len() {
        return false;
    }
    for (at, x) in a.members.iter().enumerate() {
        if !is_same_member(x, &b.members[at]) {
            return false;
        }
    }
    true
}

#[cycle(equality)]
fn is_same_member(a: &Member, b: &Member) -> bool
    ensures { IsTrue result ↔ (member_of a.now ≡ member_of b.now) }
{
    a.key == b.key && is_same(&a.value, &b.value)
}

//! The terms of a value that is no text.
ghost use Rattle.std.specs.Prelude.{◌≡◌, ◌<◌, ◌∷◌, [], map, length, IfOk, OnOk};
ghost use Rattle.std.specs.Int.{w64, to_be_bytes};
ghost use Rattle.seg_model.specs.Occurrences.{at_zero, facet_prefixes, value_terms};
ghost use Rattle.seg_terms.specs.AddedOccurrences.{with_occurrences};
ghost use Rattle.seg_values.specs.ValueTrees.{tree_of};
ghost use Rattle.seg_build.specs.FacetPrefixes.{prefix_at};

use seg_common::{DateTimePrecision, MonotonicallyMappableToU64};
use seg_terms::TermIndex;
use seg_values::OwnedValue;
use std::alloc::{AllocError, Global};

/// Adds the terms of a value, all at position 0, and answers how many they are: one, but of a facet one for each of its
/// prefixes, and none of an array or an object.
pub(crate) fn add_value_terms(
    terms: &mut TermIndex,
    alloc: Global,
    document: u32,
    value: &OwnedValue,
) -> Result<usize, AllocError>
    ensures added { OnOk result
        (terms.new ≡ with_occurrences terms.old document (map at_zero (value_terms (tree_of value.now)))) }
    ensures counted { IfOk result (λ count. count ≡ length (value_terms (tree_of value.now))) }
{
    match value {
        OwnedValue::Null => add_term(terms, alloc, document, &[]),
        OwnedValue::Str(text) => add_term(terms, alloc, document, text.as_str().as_bytes()),
        OwnedValue::PreTokStr(_) => add_term(terms, alloc, document, &[]),
        OwnedValue::U64(number) => add_number(terms, alloc, document, *number),
        OwnedValue::I64(number) => add_number(terms, alloc, document, number.to_u64()),
        OwnedValue::Bool(truth) => add_number(terms, alloc, document, truth.to_u64()),
        OwnedValue::Date(moment) => {
            let cut = moment.truncate(DateTimePrecision::Seconds);
            add_number(terms, alloc, document, cut.to_u64())
        }
        OwnedValue::Facet(facet) => {
            add_prefixes(terms, alloc, document, facet.encoded_str().as_bytes())
        }
        OwnedValue::Bytes(bytes) => add_term(terms, alloc, document, bytes.as_slice()),
        OwnedValue::Array(_) => Ok(0),
        OwnedValue::Object(_) => Ok(0),
        OwnedValue::IpAddr(address) => add_term(terms, alloc, document, &address.octets()),
    }
}

/// Adds one term, and answers so.
fn add_term(
    terms: &mut TermIndex,
    alloc: Global,
    document: u32,
    bytes: &[u8],
) -> Result<usize, AllocError>
    ensures added { OnOk result (terms.new ≡ with_occurrences terms.old document (map at_zero (bytes.now ∷ []))) }
    ensures counted { IfOk result (λ count. count ≡ 1) }
{
    terms.add(alloc, bytes, document, 0)?;
    Ok(1)
}

/// Adds the term of a number, in whose bytes numbers are in order.
fn add_number(
    terms: &mut TermIndex,
    alloc: Global,
    document: u32,
    number: u64,
) -> Result<usize, AllocError>
    ensures added { OnOk result
        (terms.new ≡ with_occurrences terms.old document (map at_zero (to_be_bytes w64 number ∷ []))) }
    ensures counted { IfOk result (λ count. count ≡ 1) }
{
    add_term(terms, alloc, document, &number.to_be_bytes())
}

/// Adds the prefixes of a facet, of which the root is the first.
fn add_prefixes(
    terms: &mut TermIndex,
    alloc: Global,
    document: u32,
    encoded: &[u8],
) -> Result<usize, AllocError>
    ensures added { OnOk result
        (terms.new ≡ with_occurrences terms.old document (map at_zero (facet_prefixes encoded.now))) }
    ensures counted { IfOk result (λ count. count ≡ length (facet_prefixes encoded.now)) }
{
    terms.add(alloc, &[], document, 0)?;
    if encoded.is_empty() {
        return Ok(1);
    }
    let mut count = 1usize;
    for at in 0..encoded.len() {
        let more = add_prefix(terms, alloc, document, encoded, at)?;
        count += more;
    }
    terms.add(alloc, encoded, document, 0)?;
    Ok(count + 1)
}

/// Adds the prefix of a facet that ends before a place, if a step ends there, and answers how many these are.
fn add_prefix(
    terms: &mut TermIndex,
    alloc: Global,
    document: u32,
    encoded: &[u8],
    at: usize,
) -> Result<usize, AllocError>
    requires { at < length encoded.now }
    ensures added { OnOk result
        (terms.new ≡ with_occurrences terms.old document (map at_zero (prefix_at encoded.now at))) }
    ensures counted { IfOk result (λ count. count ≡ length (prefix_at encoded.now at)) }
{
    if encoded[at] != 0 {
        return Ok(0);
    }
    let (prefix, _) = encoded.split_at(at);
    add_term(terms, alloc, document, prefix)
}

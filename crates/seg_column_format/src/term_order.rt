//! Terms in byte order.
ghost use Rattle.std.specs.Prelude.{◌≡◌, ◌<◌, ℕ, List, [], nat_eq, All, get_or, length, map, IfOk};
ghost use Rattle.std.specs.List.{IsDistinct, range_with_len};
ghost use Rattle.std.specs.List.Sorted.{IsPermutation};
ghost use Rattle.std.specs.Ordering.{nat_cmp};
ghost use Rattle.std.specs.Cmp.Lexicographic.{slice_cmp};
ghost use Rattle.std.specs.Str.{bytes_eq};
ghost use Rattle.seg_column_format.specs.NumberedTerms.{AreOrdinals, AscendBy, IsOrder};

use crate::term_key::TermKey;
use std::alloc::{AllocError, Global};
use std::cmp::Ordering;

/// The numbers of terms in the byte order of these, and of each number the ordinal: the place of its term in it.
#[derive(Drop)]
pub struct TermOrder {
    pub numbers: Vec<usize>,
    pub ordinals: Vec<u64>,
}

pub(crate) fn order_terms(alloc: Global, terms: &[TermKey]) -> Result<TermOrder, AllocError>
    requires { IsDistinct bytes_eq terms.now }
    ensures { IfOk result (λ order. IsOrder terms.now order.numbers.items order.ordinals.items) }
{
    let numbers = sorted_numbers(alloc, terms)?;
    let ordinals = ordinals_of(alloc, &numbers)?;
    Ok(TermOrder { numbers, ordinals })
}

/// The numbers of all terms, in the byte order of these.
fn sorted_numbers(alloc: Global, terms: &[TermKey]) -> Result<Vec<usize>, AllocError>
    requires { IsDistinct bytes_eq terms.now }
    ensures { IfOk result (λ numbers. AscendBy terms.now numbers.items) }
{
    let mut numbers = all_numbers(alloc, terms.len())?;
    numbers.sort_unstable_by(|a, b| compare(terms, *a, *b));
    Ok(numbers)
}

fn all_numbers(alloc: Global, count: usize) -> Result<Vec<usize>, AllocError>
    ensures { IfOk result (λ numbers. numbers.items ≡ range_with_len 0 count) }
{
    let mut numbers = Vec::with_capacity(alloc, count)?;
    for number in 0..count {
        numbers.push(number)?;
    }
    Ok(numbers)
}

/// How the terms with two numbers compare; a number without a term is as the empty one.
fn compare(terms: &[TermKey], first: usize, second: usize) -> Ordering
    ensures { result ≡ slice_cmp nat_cmp (get_or terms.now first []) (get_or terms.now second []) }
{
    bytes_at(terms, first).cmp(&bytes_at(terms, second))
}

/// The term with a number; a number without a term is as that of the empty one.
pub(crate) fn bytes_at(terms: &[TermKey], number: usize) -> &[u8]
    ensures { result.now ≡ get_or terms.now number [] }
{
    match terms.get(number) {
        Some(term) => term.as_slice(),
        None => &[],
    }
}

/// The place of each number.
fn ordinals_of(alloc: Global, numbers: &[usize]) -> Result<Vec<u64>, AllocError>
    requires below { All (λ n. n < length numbers.now) numbers.now }
    requires distinct { IsDistinct nat_eq numbers.now }
    ensures { IfOk result (λ ordinals. AreOrdinals numbers.now ordinals.items) }
{
    let mut ordinals = vec![in alloc; 0; numbers.len()]?;
    for place in 0..numbers.len() {
        let number = numbers[place];
        ordinals[number] = place as u64;
    }
    Ok(ordinals)
}

//! Distinct terms, by their numbers and in byte order.
ghost use Rattle.std.specs.Prelude.{◌≡◌, ◌<◌, [], false, get_or, length, IfOk, OnOk, OnErr};
ghost use Rattle.std.specs.List.{IsDistinct, list_any};
ghost use Rattle.std.specs.Str.{bytes_eq};
ghost use Rattle.seg_column_format.specs.NumberedTerms.{IsOrder, term_number, with_term};

use crate::term_key::{TermBytes, TermKey};
use crate::term_order::{TermOrder, bytes_at, order_terms};
use indexmap::IndexSet;
use std::alloc::{AllocError, Global};
use std::marker::Model;

/// Distinct terms, each with a number: its place in the order in which they came. It is seen as their list.
#[derive(Drop)]
pub struct TermTable {
    terms: IndexSet<TermKey>,
}

impl Model for TermTable {
    ghost use Rattle.std.specs.Prelude.{List, ℕ};

    ghost Value = { List (List ℕ) };

    ghost view = { λ t. t.terms.keys };
}

impl TermTable {
    pub fn new(alloc: Global) -> TermTable
        ensures { result ≡ [] }
    {
        TermTable {
            terms: IndexSet::new(alloc),
        }
    }

    /// The number of a term, which is put at the end where it isn't there.
    pub fn add(&mut self, alloc: Global, term: &[u8]) -> Result<u64, AllocError>
        ensures ok { OnOk result (self.new ≡ with_term self.old term.now) }
        ensures number { IfOk result (λ number. number ≡ term_number self.old term.now) }
        ensures err { OnErr result (self.new ≡ self.old) }
    {
        let Some(number) = self.terms.get_index_of(TermBytes { bytes: term }) else {
            return self.add_first(alloc, term);
        };
        Ok(number as u64)
    }

    /// Adds a term which is none of those so far.
    fn add_first(&mut self, alloc: Global, term: &[u8]) -> Result<u64, AllocError>
        requires { list_any (bytes_eq term.now) self.old ≡ false }
        ensures ok { OnOk result (self.new ≡ with_term self.old term.now) }
        ensures number { IfOk result (λ number. number ≡ term_number self.old term.now) }
        ensures err { OnErr result (self.new ≡ self.old) }
    {
        let number = self.terms.len() as u64;
        let copy = TermKey::copy_of(alloc, term)?;
        let Ok(_) = self.terms.insert(copy) else {
            return Err(AllocError);
        };
        Ok(number)
    }

    /// How many terms there are. No two are equal.
    pub fn len(&self) -> usize
        ensures length { result ≡ length self.now }
        ensures distinct { IsDistinct bytes_eq self.now }
    {
        self.terms.len()
    }

    /// The term with a number.
    pub fn term(&self, number: usize) -> &[u8]
        requires { number < length self.now }
        ensures { result.now ≡ get_or self.now number [] }
    {
        let terms = self.terms.as_slice();
        terms[number].as_slice()
    }

    /// The term with a number, or the empty one where there is none.
    pub fn term_or_empty(&self, number: usize) -> &[u8]
        ensures { result.now ≡ get_or self.now number [] }
    {
        bytes_at(self.terms.as_slice(), number)
    }

    /// The terms by their numbers.
    pub(crate) fn as_slice(&self) -> &[TermKey]
        ensures { result.now ≡ self.now }
    {
        self.terms.as_slice()
    }

    /// The terms in byte order.
    pub fn order(&self, alloc: Global) -> Result<TermOrder, AllocError>
        ensures { IfOk result (λ order. IsOrder self.now order.numbers.items order.ordinals.items) }
    {
        order_terms(alloc, self.terms.as_slice())
    }
}

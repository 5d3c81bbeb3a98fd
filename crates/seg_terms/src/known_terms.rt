//! Terms that came, by the keys that are kept of them, and their occurrences.
ghost use Rattle.std.specs.Prelude.{◌≡◌, ◌≤◌, ◌^◌, [], false, length, OnOk, OnErr};
ghost use Rattle.std.specs.List.{list_any};
ghost use Rattle.std.specs.Str.{bytes_eq};
ghost use Rattle.seg_terms.specs.TermsByKey.{AreKnown, IsAdded};

use crate::hit::{Hit, NumberedHit};
use indexmap::IndexSet;
use seg_column_format::{TermBytes, TermKey};
use std::alloc::{AllocError, Global};

/// The keys of the terms so far, and all occurrences. A term's number is the place of its key, in the order in which
/// they came.
#[derive(Drop)]
pub(crate) struct KnownTerms {
    pub keys: IndexSet<TermKey>,
    pub hits: Vec<NumberedHit>,
}

impl KnownTerms {
    pub fn new(alloc: Global) -> KnownTerms
        ensures keys { result.keys.keys ≡ [] }
        ensures hits { result.hits.items ≡ [] }
    {
        KnownTerms {
            keys: IndexSet::new(alloc),
            hits: Vec::new(alloc),
        }
    }

    /// Adds an occurrence of the term with a key. More than 2^32 terms count as out of memory.
    pub fn add(&mut self, alloc: Global, bytes: &[u8], hit: Hit) -> Result<(), AllocError>
        requires { AreKnown self.old }
        ensures known { AreKnown self.new }
        ensures ok { OnOk result (IsAdded bytes.now hit self.old self.new) }
        ensures err { OnErr result (self.new.keys.keys ≡ self.old.keys.keys
            × self.new.hits.items ≡ self.old.hits.items) }
    {
        let Some(number) = self.keys.get_index_of(TermBytes { bytes }) else {
            return self.add_first(alloc, bytes, hit);
        };
        let term = number as u32;
        self.hits.push(NumberedHit { term, hit })?;
        Ok(())
    }

    /// Adds the first occurrence of a term, which is none of those so far.
    fn add_first(&mut self, alloc: Global, bytes: &[u8], hit: Hit) -> Result<(), AllocError>
        requires known { AreKnown self.old }
        requires new { list_any (bytes_eq bytes.now) self.old.keys.keys ≡ false }
        ensures known { AreKnown self.new }
        ensures ok { OnOk result (IsAdded bytes.now hit self.old self.new) }
        ensures err { OnErr result (self.new.keys.keys ≡ self.old.keys.keys
            × self.new.hits.items ≡ self.old.hits.items) }
    {
        let Ok(term) = u32::try_from(self.keys.len()) else {
            return Err(AllocError);
        };
        let key = TermKey::copy_of(alloc, bytes)?;
        self.hits.reserve(1)?;
        let Ok(_) = self.keys.insert(key) else {
            return Err(AllocError);
        };
        self.hits.push(NumberedHit { term, hit })?;
        Ok(())
    }
}

//! The terms of a field so far, each with its occurrences.
ghost use Rattle.std.specs.Prelude.{◌≡◌, OnOk, OnErr};
ghost use Rattle.std.specs.FinMap as fin;
ghost use Rattle.seg_terms.specs.AddedOccurrences.{with_occurrence};

use crate::hit::Hit;
use crate::known_terms::KnownTerms;
use std::alloc::{AllocError, Global};
use std::marker::Model;

/// The terms so far, which are kept by their bytes.
#[derive(Drop)]
pub struct TermIndex {
    pub(crate) known: KnownTerms,
}

impl Model for TermIndex {
    ghost use Rattle.seg_model.specs.DocumentTerms.{Terms};
    ghost use Rattle.seg_model.specs.Codes.{terms_code};
    ghost use Rattle.seg_terms.specs.TermsByKey.{AreKnown};
    ghost use Rattle.seg_terms.specs.NumberedOccurrences.{numbered_terms};

    ghost Value = { Terms };

    ghost coded = { terms_code };

    ghost view = { λ a. numbered_terms a.known.keys.keys a.known.hits.items };

    ghost invariant = { λ a. AreKnown a.known };
}

impl TermIndex {
    pub fn new(alloc: Global) -> TermIndex
        ensures { result ≡ fin.empty }
    {
        TermIndex {
            known: KnownTerms::new(alloc),
        }
    }

    /// Adds an occurrence in a document that no posting comes after.
    pub fn add(
        &mut self,
        alloc: Global,
        bytes: &[u8],
        document: u32,
        position: u32,
    ) -> Result<(), AllocError>
        ensures ok { OnOk result (self.new
            ≡ with_occurrence self.old document (record { bytes = bytes.now; position = position })) }
        ensures err { OnErr result (self.new ≡ self.old) }
    {
        self.known.add(alloc, bytes, Hit { document, position })
    }
}

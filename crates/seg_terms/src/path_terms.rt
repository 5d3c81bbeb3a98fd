//! The terms of a JSON field so far, each with its occurrences.
ghost use Rattle.std.specs.Prelude.{◌≡◌, ◌<◌, None, [], ◌∷◌, ◌++◌, map, length, slice_index_or, IfOk, OnOk, OnErr};
ghost use Rattle.std.specs.FinMap as fin;
ghost use Rattle.seg_model.specs.DocumentCheck.{tree_refusal};
ghost use Rattle.seg_model.specs.Leaves.{leaves};
ghost use Rattle.seg_paths.specs.NumberedLeaves.{numbered, in_table};
ghost use Rattle.seg_paths.specs.Paths.{Extends};
ghost use Rattle.seg_terms.specs.AddedOccurrences.{with_occurrence};
ghost use Rattle.seg_values.specs.ValueTrees.{tree_of};

use crate::hit::Hit;
use crate::known_terms::KnownTerms;
use crate::path_key::write_key;
use seg_paths::{NumberedLeaf, PathTable, leaves_of};
use seg_values::OwnedValue;
use std::alloc::{AllocError, Global};
use std::marker::Model;

/// The paths of a JSON field and its terms so far: a path, a byte 0, and the type and the bytes of a value. A term is
/// kept by the number of its path, so that a path takes memory once, however many terms are on it.
#[derive(Drop)]
pub struct PathTerms {
    pub(crate) paths: PathTable,
    pub(crate) known: KnownTerms,
    /// Where a key is put together before it is looked up.
    pub(crate) key: Vec<u8>,
}

impl Model for PathTerms {
    ghost use Rattle.std.specs.Prelude.{length, map};
    ghost use Rattle.std.specs.Coded.{codes};
    ghost use Rattle.std.specs.List.{AllByRecursion};
    ghost use Rattle.seg_model.specs.Codes.{terms_code};
    ghost use Rattle.seg_terms.specs.TermsByKey.{AreKnown};
    ghost use Rattle.seg_terms.specs.NumberedOccurrences.{numbered_terms};
    ghost use Rattle.seg_terms.specs.PathKeys.{TermsOnPaths, IsPathKey, term_on};

    ghost Value = { TermsOnPaths };

    ghost coded = { Prim.hlevel (codes, terms_code) };

    ghost view = { λ a. record {
      paths = a.paths;
      terms = numbered_terms (map (term_on a.paths) a.known.keys.keys) a.known.hits.items;
    } };

    ghost invariant = { λ a. AreKnown a.known × AllByRecursion (IsPathKey (length a.paths)) a.known.keys.keys };
}

impl PathTerms {
    pub fn new(alloc: Global) -> PathTerms
        ensures { result ≡ record { paths = []; terms = fin.empty } }
    {
        PathTerms {
            paths: PathTable::new(alloc),
            known: KnownTerms::new(alloc),
            key: Vec::new(alloc),
        }
    }

    /// The leaves of a value, from left to right. Their paths get numbers.
    pub fn leaves_of<'a>(
        &mut self,
        alloc: Global,
        expand_dots: bool,
        value: &'a OwnedValue,
    ) -> Result<Vec<NumberedLeaf<'a>>, AllocError>
        requires { tree_refusal (tree_of value.now) ≡ None }
        ensures terms { self.new.terms ≡ self.old.terms }
        ensures extends { Extends self.old.paths self.new.paths }
        ensures leaves { IfOk result (λ found. map numbered found.items
            ≡ map (in_table self.new.paths expand_dots) (leaves (tree_of value.now))) }
    {
        leaves_of(alloc, &mut self.paths, expand_dots, value)
    }

    /// Adds an occurrence in a document that no posting comes after, of the term with the path of this number, a byte 0
    /// and these bytes. A term that is there takes no memory but for its occurrence.
    pub fn add(
        &mut self,
        alloc: Global,
        path: u32,
        rest: &[u8],
        document: u32,
        position: u32,
    ) -> Result<(), AllocError>
        requires { path < length self.old.paths }
        ensures ok { OnOk result (self.new ≡ record {
          paths = self.old.paths;
          terms = with_occurrence self.old.terms
              document (record { bytes = slice_index_or self.old.paths path [] ++ 0 ∷ rest.now; position = position });
        }) }
        ensures err { OnErr result (self.new ≡ self.old) }
    {
        prove!((path as usize) < self.paths.len());
        write_key(&mut self.key, path, rest)?;
        self.known.add(alloc, &self.key, Hit { document, position })
    }
}

//! The leaves of a JSON value, added to the terms of its field.
ghost use Rattle.std.specs.Prelude.{◌≡◌, None, Some, [], ◌∷◌, map, slice_index_or, IfOk, OnOk};
ghost use Rattle.std.specs.List.{AllByRecursion};
ghost use Rattle.seg_check.specs.LeafContents as contents;
ghost use Rattle.seg_check.specs.Paths.{IsNumbered, at_path, path_leaf};
ghost use Rattle.seg_model.specs.DocumentCheck.{tree_refusal};
ghost use Rattle.seg_model.specs.Leaves.{leaves};
ghost use Rattle.seg_model.specs.Occurrences.{coded_value};
ghost use Rattle.seg_paths.specs.NumberedLeaves.{leaf_in};
ghost use Rattle.seg_paths.specs.Paths.{number_of};
ghost use Rattle.seg_values.specs.ValueTrees.{tree_of};
ghost use Rattle.seg_build.specs.GatheredFieldTerms.{AddsLeaf, json_gathered, with_leaves};
ghost use Rattle.seg_build.specs.LeafPositions.{LeafFits, LeavesFit, leaf_count, leaves_count};
ghost use Rattle.seg_model.specs.SaturatedNumbers.{saturated};
ghost use Rattle.seg_build.specs.PathStarts.{path_start};

use crate::coded_leaf::coded_leaf;
use crate::json_terms::JsonTerms;
use crate::path_start::PathStart;
use crate::path_tokens::{add_path_term, add_path_tokens};
use crate::tokens::next_start;
use seg_check::counted_len;
use seg_paths::{NumberedLeaf, set_value, value_of};
use seg_terms::Hit;
use seg_tokens::{Token, Tokens};
use seg_values::OwnedValue;
use std::alloc::{AllocError, Global};

impl JsonTerms {
    /// Adds the leaves of a value that passed the check of leaves and keys, of a document that no other one comes
    /// after, with the tokens of its texts, and answers how many terms they give, at most `usize::MAX`. After an error
    /// some of them may have been added.
    pub fn add_leaves(
        &mut self,
        alloc: Global,
        document: u32,
        expand_dots: bool,
        value: &OwnedValue,
        texts: &[Tokens],
    ) -> Result<usize, AllocError>
        requires keys { tree_refusal (tree_of value.now) ≡ None }
        requires fits { LeavesFit (path_start document (json_gathered self.old).starts)
            (contents.with_texts texts.now (map (at_path expand_dots) (leaves (tree_of value.now)))) }
        ensures added { OnOk result (json_gathered self.new ≡ with_leaves document (json_gathered self.old)
            (contents.with_texts texts.now (map (at_path expand_dots) (leaves (tree_of value.now))))) }
        ensures counted { IfOk result (λ count. count ≡ saturated (leaves_count
            (contents.with_texts texts.now (map (at_path expand_dots) (leaves (tree_of value.now)))))) }
    {
        let found = self.terms.leaves_of(alloc, expand_dots, value)?;
        self.add_found(alloc, document, found, texts)
    }

    /// Adds leaves whose paths have numbers.
    fn add_found(
        &mut self,
        alloc: Global,
        document: u32,
        leaves: Vec<NumberedLeaf>,
        texts: &[Tokens],
    ) -> Result<usize, AllocError>
        requires numbered { AllByRecursion (IsNumbered self.old.terms.paths) leaves.items }
        requires fits { LeavesFit (path_start document (json_gathered self.old).starts)
            (contents.with_texts texts.now (map (path_leaf self.old.terms.paths) leaves.items)) }
        ensures added { OnOk result (json_gathered self.new ≡ with_leaves document (json_gathered self.old)
            (contents.with_texts texts.now (map (path_leaf self.old.terms.paths) leaves.entry.items))) }
        ensures counted { IfOk result (λ count. count ≡ saturated (leaves_count
            (contents.with_texts texts.now (map (path_leaf self.old.terms.paths) leaves.entry.items)))) }
    {
        let mut rest = texts;
        let mut room = Vec::new(alloc);
        let mut count = 0usize;
        for found in leaves {
            let NumberedLeaf { path, leaf } = found;
            let tokens = first_tokens(rest);
            let more = self.add_leaf(alloc, document, path, leaf, tokens, &mut room)?;
            count = count.saturating_add(more);
            rest = texts_after(rest, leaf);
        }
        Ok(count)
    }

    /// Adds a leaf at the path with a number, with the tokens of a text.
    fn add_leaf(
        &mut self,
        alloc: Global,
        document: u32,
        path: u32,
        leaf: &OwnedValue,
        tokens: &[Token],
        room: &mut Vec<u8>,
    ) -> Result<usize, AllocError>
        requires number { number_of self.old.terms.paths (slice_index_or self.old.terms.paths path []) ≡ Some path }
        requires fits { LeafFits
            (path_start document (json_gathered self.old).starts (slice_index_or self.old.terms.paths path []))
            (contents.leaf_with (tokens.now ∷ []) (leaf_in (tree_of leaf.now))) }
        ensures added { OnOk result (AddsLeaf document self.old self.new (
          slice_index_or self.old.terms.paths path [],
          contents.leaf_with (tokens.now ∷ []) (leaf_in (tree_of leaf.now)),
        )) }
        ensures counted { IfOk result (λ count. count
            ≡ leaf_count (contents.leaf_with (tokens.now ∷ []) (leaf_in (tree_of leaf.now)))) }
    {
        match leaf {
            OwnedValue::Str(_) => self.add_text(alloc, document, path, tokens, room),
            _ => self.add_coded(alloc, document, path, leaf, room),
        }
    }

    /// Adds a text at the path with a number: it begins where the texts of the path end in the document.
    fn add_text(
        &mut self,
        alloc: Global,
        document: u32,
        path: u32,
        tokens: &[Token],
        room: &mut Vec<u8>,
    ) -> Result<usize, AllocError>
        requires number { number_of self.old.terms.paths (slice_index_or self.old.terms.paths path []) ≡ Some path }
        requires fits { LeafFits (path_start document (json_gathered self.old).starts
            (slice_index_or self.old.terms.paths path [])) (contents.text_leaf tokens.now) }
        ensures added { OnOk result (AddsLeaf document self.old self.new
            (slice_index_or self.old.terms.paths path [], contents.text_leaf tokens.now)) }
        ensures counted { IfOk result (λ count. count ≡ leaf_count (contents.text_leaf tokens.now)) }
    {
        let start = self.start_of(document, path);
        let first = Hit {
            document,
            position: start,
        };
        add_path_tokens(&mut self.terms, alloc, path, first, tokens, room)?;
        let end = PathStart {
            document,
            start: next_start(start, tokens),
        };
        set_value(&mut self.starts, path, PathStart::NONE, end)?;
        Ok(counted_len(tokens))
    }

    /// Where the next text of the path with a number begins in a document.
    fn start_of(&self, document: u32, path: u32) -> u32
        requires { number_of self.now.terms.paths (slice_index_or self.now.terms.paths path []) ≡ Some path }
        ensures { result
            ≡ path_start document (json_gathered self.now).starts (slice_index_or self.now.terms.paths path []) }
    {
        let kept = value_of(&self.starts, path, PathStart::NONE);
        kept.in_document(document)
    }

    /// Adds a leaf that is no text at the path with a number, if it has a code.
    fn add_coded(
        &mut self,
        alloc: Global,
        document: u32,
        path: u32,
        leaf: &OwnedValue,
        room: &mut Vec<u8>,
    ) -> Result<usize, AllocError>
        requires number { number_of self.old.terms.paths (slice_index_or self.old.terms.paths path []) ≡ Some path }
        ensures added { OnOk result (AddsLeaf document self.old self.new (
          slice_index_or self.old.terms.paths path [],
          contents.coded_leaf (coded_value (leaf_in (tree_of leaf.now))),
        )) }
        ensures counted { IfOk result (λ count. count
            ≡ leaf_count (contents.coded_leaf (coded_value (leaf_in (tree_of leaf.now))))) }
    {
        let Some(coded) = coded_leaf(leaf) else {
            return Ok(0);
        };
        let hit = Hit {
            document,
            position: 0,
        };
        add_path_term(
            &mut self.terms,
            alloc,
            path,
            hit,
            coded.code,
            &coded.number.to_be_bytes(),
            room,
        )?;
        Ok(1)
    }
}

/// The tokens of the first text; none where there is no further one.
fn first_tokens(texts: &[Tokens]) -> &[Token]
    ensures { result.now ≡ slice_index_or texts.now 0 [] }
{
    match texts.first() {
        Some(tokens) => tokens.as_slice(),
        None => &[],
    }
}

/// The texts of the leaves after this one.
fn texts_after<'a>(texts: &'a [Tokens], leaf: &OwnedValue) -> &'a [Tokens]
    ensures { result.now ≡ contents.texts_after texts.now (leaf_in (tree_of leaf.now)) }
{
    match leaf {
        OwnedValue::Str(_) if !texts.is_empty() => {
            let (_, others) = texts.split_at(1);
            others
        }
        _ => texts,
    }
}

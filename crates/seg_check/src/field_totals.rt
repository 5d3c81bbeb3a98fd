//! What a document has in a field, value by value.
ghost use Rattle.std.specs.Prelude.{◌≡◌, List, ℕ, [], ◌∷◌, ◌++◌, ◌&&◌, true, length, map, IfOk, IsSome, IsTrue};
ghost use Rattle.std.specs.List.{AllByRecursion};
ghost use Rattle.seg_values.specs.Tree.{Leaf, Tree};
ghost use Rattle.seg_tokens.specs.declared.token.Token.{Token};
ghost use Rattle.seg_values.specs.ValueTrees.{tree_of};
ghost use Rattle.seg_model.specs.DocumentCheck as checked;
ghost use Rattle.seg_model.specs.Fields as fields;
ghost use Rattle.seg_check.specs.Paths.{IsNumbered, PathsStand, path_leaf, texts_of};
ghost use Rattle.seg_check.specs.ReadyValues.{IsReady};
ghost use Rattle.seg_check.specs.TextSizes.{measured};
ghost use Rattle.seg_check.specs.FieldContents.{Stands, found_in, rises as rises_in};

use crate::entry::indexing_tokenizer;
use crate::field_text::FieldText;
use crate::paths::PathTotals;
use crate::size::{TextSize, text_size};
use crate::texts::cut_leaf;
use crate::totals::{Totals, is_u32};
use seg_paths::NumberedLeaf;
use seg_tokens::{Analyzers, Tokens};
use seg_values::{FieldEntry, FieldKind, OwnedValue};
use std::alloc::{AllocError, Global};

/// What came in a field: as a whole, and in a JSON field at each joined path.
#[derive(Drop)]
pub(crate) struct FieldTotals {
    pub whole: Totals,
    pub paths: PathTotals,
}

impl FieldTotals {
    /// Before any value.
    pub fn new(alloc: Global) -> FieldTotals
        ensures { (entry : FieldEntry) → (analyze : List ℕ → List Token) → Stands entry analyze result [] }
    {
        FieldTotals {
            whole: Totals::none(),
            paths: PathTotals::new(alloc),
        }
    }

    /// One more value, which in a text field is cut, unless positions decrease in one of its texts. The texts of a JSON
    /// value are cut here, and come after those before them.
    pub fn add_value<Z: Analyzers>(
        &mut self,
        alloc: Global,
        analyzers: &Z,
        entry: &FieldEntry,
        text: &FieldText,
        value: &OwnedValue,
        texts: &mut Vec<Tokens>,
    ) -> Result<bool, AllocError>
        requires { IsReady (Z.knows analyzers.now)
            (Z.tokens_of analyzers.now) entry.now text.now.cut (tree_of value.now) }
        ensures rises { IfOk result (λ rises. rises
            ≡ rises_in (Z.tokens_of analyzers.now) entry.now (tree_of value.now)) }
        ensures stands { (done : List Tree)
            → Stands entry.now (Z.tokens_of analyzers.now (fields.indexing_tokenizer entry.now)) self.old done
            → IfOk result (λ rises. rises ≡ true
            → Stands entry.now (Z.tokens_of analyzers.now (fields.indexing_tokenizer entry.now)) self.new
            (done ++ tree_of value.now ∷ [])) }
        ensures cut { entry.now.kind ≡ FieldKind.Json
            → IfOk result (λ rises. rises ≡ true
            → texts.new.items
            ≡ texts.old.items
            ++ checked.value_texts entry.now.kind
            (Z.tokens_of analyzers.now (fields.indexing_tokenizer entry.now)) (tree_of value.now)) }
    {
        match texts_size(&mut self.paths, alloc, analyzers, entry, text, value, texts)? {
            Some(size) => {
                self.whole = self.whole.with(size);
                Ok(true)
            }
            None => Ok(false),
        }
    }

    /// Whether all is within the limits.
    pub fn fits(&self, entry: &FieldEntry) -> bool
        ensures { (analyze : List ℕ → List Token) → (done : List Tree) → Stands entry.now analyze self.now done
            → result
            ≡ (checked.is_u32 (length done) && checked.kind_fits entry.now.kind entry.now.expand_dots analyze done) }
    {
        match entry.kind {
            FieldKind::Text => self.whole.fits(),
            FieldKind::Json => self.fits_by_path(),
            _ => is_u32(self.whole.count),
        }
    }

    fn fits_by_path(&self) -> bool
        ensures { result
            ≡ (checked.is_u32 self.now.whole.count
            && (checked.is_u32 self.now.whole.size.tokens && self.now.paths.are_within)) }
    {
        is_u32(self.whole.count) && is_u32(self.whole.size.tokens) && self.paths.are_within
    }
}

/// The size of the texts of a value; none where positions decrease in one. In a JSON field its leaves come in, and its
/// texts are cut.
fn texts_size<Z: Analyzers>(
    paths: &mut PathTotals,
    alloc: Global,
    analyzers: &Z,
    entry: &FieldEntry,
    text: &FieldText,
    value: &OwnedValue,
    texts: &mut Vec<Tokens>,
) -> Result<Option<TextSize>, AllocError>
    requires { IsReady (Z.knows analyzers.now) (Z.tokens_of analyzers.now) entry.now text.now.cut (tree_of value.now) }
    ensures size { IfOk result (λ size. size
        ≡ measured (checked.value_texts entry.now.kind
        (Z.tokens_of analyzers.now (fields.indexing_tokenizer entry.now)) (tree_of value.now))) }
    ensures stands { (done : List Tree) → entry.now.kind ≡ FieldKind.Json
        → PathsStand (Z.tokens_of analyzers.now (fields.indexing_tokenizer entry.now)) paths.old
        (found_in entry.now.expand_dots done)
        → IfOk result (λ size. IsSome size
        → PathsStand (Z.tokens_of analyzers.now (fields.indexing_tokenizer entry.now)) paths.new
        (found_in entry.now.expand_dots (done ++ tree_of value.now ∷ []))) }
    ensures cut { entry.now.kind ≡ FieldKind.Json
        → IfOk result (λ size. IsSome size
        → texts.new.items
        ≡ texts.old.items
        ++ checked.value_texts entry.now.kind
        (Z.tokens_of analyzers.now (fields.indexing_tokenizer entry.now)) (tree_of value.now)) }
{
    match entry.kind {
        FieldKind::Text => Ok(text_size(text.tokens(value))),
        FieldKind::Json => {
            let tokenizer = indexing_tokenizer(entry);
            let leaves = paths.leaves_of(alloc, entry.expand_dots, value)?;
            add_leaves(paths, alloc, analyzers, tokenizer, leaves, texts)
        }
        _ => Ok(Some(TextSize::none())),
    }
}

/// The leaves of a value come in, and their texts are cut. The size of these; none where positions decrease in one.
fn add_leaves<Z: Analyzers>(
    paths: &mut PathTotals,
    alloc: Global,
    analyzers: &Z,
    tokenizer: &str,
    leaves: Vec<NumberedLeaf>,
    texts: &mut Vec<Tokens>,
) -> Result<Option<TextSize>, AllocError>
    requires { IsTrue (Z.knows analyzers.now tokenizer.now) }
    ensures size { IfOk result (λ size. size
        ≡ measured (texts_of (Z.tokens_of analyzers.now tokenizer.now)
        (map (path_leaf paths.old.table) leaves.entry.items))) }
    ensures stands { (found : List (List ℕ × Leaf))
        → AllByRecursion (IsNumbered paths.old.table) leaves.entry.items
        → PathsStand (Z.tokens_of analyzers.now tokenizer.now) paths.old found → IfOk result (λ size. IsSome size
        → PathsStand (Z.tokens_of analyzers.now tokenizer.now) paths.new
        (found ++ map (path_leaf paths.old.table) leaves.entry.items)) }
    ensures cut { IfOk result (λ size. IsSome size → texts.new.items
        ≡ texts.old.items ++ texts_of (Z.tokens_of analyzers.now tokenizer.now)
        (map (path_leaf paths.old.table) leaves.entry.items)) }
{
    let mut whole = TextSize::none();
    for found in leaves {
        let NumberedLeaf { path, leaf } = found;
        let Some(size) = cut_leaf(texts, alloc, analyzers, tokenizer, leaf)? else {
            return Ok(None);
        };
        paths.add(path, size)?;
        whole = whole.plus(size);
    }
    Ok(Some(whole))
}

//! The third pass: texts are cut, the positions of their tokens are checked, and what came in each field is added up.
ghost use Rattle.std.specs.Prelude.{◌≡◌, [], ◌∷◌, ◌++◌, true, nat_eq, is_some, is_none, None, Some, IfOk, IfSome};
ghost use Rattle.std.specs.List.{slice_get, AllByRecursion};
ghost use Rattle.seg_model.specs.DocumentCheck as checked;
ghost use Rattle.seg_model.specs.Fields as fields;
ghost use Rattle.seg_check.specs.DocumentFields.{HasCut, CutsMore, TellMore};
ghost use Rattle.seg_check.specs.KnownTokenizers.{KnowsTexts};
ghost use Rattle.seg_check.specs.ReadyValues.{IsReady};
ghost use Rattle.seg_check.specs.FieldContents.{rises as rises_in};
ghost use Rattle.seg_values.specs.Tree.{Document};
ghost use Rattle.seg_values.specs.ValueTrees.{tree_of};

use crate::field_text::{FieldText, cut_tokens};
use crate::field_totals::FieldTotals;
use crate::indexed_value::{IndexedValue, value_form};
use seg_tokens::{Analyzers, Tokens};
use seg_values::{Field, FieldEntry, FieldKind, OwnedValue, Pairs, Schema};
use std::alloc::{AllocError, Global};
use std::collections::HashMap;

/// What a document has in indexed fields: its values in their order, and the totals of each such field in which it has
/// a value.
#[derive(Drop)]
pub(crate) struct CutDocument {
    pub values: Vec<IndexedValue>,
    pub totals: HashMap<u32, FieldTotals>,
}

/// Cuts the texts of a document that passed the first two passes, each once; none where positions decrease in a text of
/// an indexed field.
pub(crate) fn cut_texts<Z: Analyzers>(
    alloc: Global,
    analyzers: &Z,
    schema: &Schema,
    document: &Pairs<'_>,
) -> Result<Option<CutDocument>, AllocError>
    requires known { AllByRecursion (KnowsTexts (Z.knows analyzers.now)) schema.now }
    requires json { checked.leaves_refusal schema.now document.now ≡ None }
    ensures order { IfOk result (λ found. is_some found
        ≡ is_none (checked.order_refusal schema.now (Z.tokens_of analyzers.now) document.now)) }
    ensures cut { IfOk result (λ found. IfSome found
        (HasCut schema.now (Z.tokens_of analyzers.now) document.now document.now)) }
{
    let mut cut = CutDocument::new(alloc);
    for at in 0..document.len() {
        let (field, value) = document.pair(at);
        if !cut.add_pair(alloc, analyzers, schema.fields(), at, field, value)? {
            return Ok(None);
        }
    }
    Ok(Some(cut))
}

impl CutDocument {
    /// Before any pair.
    fn new(alloc: Global) -> CutDocument
        ensures { (schema : fields.Schema) → (analyzer : fields.Analyzer) → (document : Document)
            → HasCut schema analyzer document [] result }
    {
        CutDocument {
            values: Vec::new(alloc),
            totals: HashMap::new(alloc),
        }
    }

    /// One more pair, which is at a place of its document, unless positions decrease in one of its texts.
    fn add_pair<Z: Analyzers>(
        &mut self,
        alloc: Global,
        analyzers: &Z,
        schema: &[FieldEntry],
        at: usize,
        field: Field,
        value: &OwnedValue,
    ) -> Result<bool, AllocError>
        requires known { AllByRecursion (KnowsTexts (Z.knows analyzers.now)) schema.now }
        requires json { checked.json_refusal (tree_of value.now) (slice_get schema.now field) ≡ None }
        ensures order { IfOk result (λ rises. rises
            ≡ is_none (checked.positions_refusal (Z.tokens_of analyzers.now) (tree_of value.now)
            (slice_get schema.now field))) }
        ensures cut { IfOk result (λ rises. rises ≡ true
            → CutsMore schema.now (Z.tokens_of analyzers.now) at (field, tree_of value.now) self.old self.new) }
    {
        let field = field.field_id();
        let Some(entry) = schema.get(field as usize) else {
            return Ok(true);
        };
        if !entry.is_indexed() {
            return Ok(true);
        }
        let cut = cut_tokens(alloc, analyzers, entry, value)?;
        self.add_value(alloc, analyzers, entry, FieldText { field, at, cut }, value)
    }

    /// One more value of an indexed field, unless positions decrease in one of its texts.
    fn add_value<Z: Analyzers>(
        &mut self,
        alloc: Global,
        analyzers: &Z,
        entry: &FieldEntry,
        text: FieldText,
        value: &OwnedValue,
    ) -> Result<bool, AllocError>
        requires { IsReady (Z.knows analyzers.now) (Z.tokens_of analyzers.now) entry.now text.cut (tree_of value.now) }
        ensures rises { IfOk result (λ rises. rises
            ≡ rises_in (Z.tokens_of analyzers.now) entry.now (tree_of value.now)) }
        ensures cut { (schema : fields.Schema) → slice_get schema text.field ≡ Some entry.now
            → IfOk result (λ rises. rises ≡ true
            → CutsMore schema (Z.tokens_of analyzers.now) text.at (text.field, tree_of value.now) self.old self.new) }
    {
        let mut texts = Vec::new(alloc);
        let rises = add_value(
            &mut self.totals,
            alloc,
            analyzers,
            entry,
            &text,
            value,
            &mut texts,
        )?;
        let FieldText { field, at, cut } = text;
        let form = value_form(entry, cut, texts);
        self.values.push(IndexedValue { field, at, form })?;
        Ok(rises)
    }
}

/// One more value of an indexed field, which in a text field is cut, unless positions decrease in one of its texts. The
/// texts of a JSON value are cut here.
fn add_value<Z: Analyzers>(
    totals: &mut HashMap<u32, FieldTotals>,
    alloc: Global,
    analyzers: &Z,
    entry: &FieldEntry,
    text: &FieldText,
    value: &OwnedValue,
    texts: &mut Vec<Tokens>,
) -> Result<bool, AllocError>
    requires { IsReady (Z.knows analyzers.now) (Z.tokens_of analyzers.now) entry.now text.now.cut (tree_of value.now) }
    ensures rises { IfOk result (λ rises. rises ≡ rises_in (Z.tokens_of analyzers.now) entry.now (tree_of value.now)) }
    ensures stand { (schema : fields.Schema) → slice_get schema text.now.field ≡ Some entry.now
        → IfOk result (λ rises. rises ≡ true
        → TellMore schema (Z.tokens_of analyzers.now) (text.now.field, tree_of value.now) totals.old totals.new) }
    ensures cut { entry.now.kind ≡ FieldKind.Json
        → IfOk result (λ rises. rises ≡ true
        → texts.new.items
        ≡ texts.old.items
        ++ checked.value_texts entry.now.kind
        (Z.tokens_of analyzers.now (fields.indexing_tokenizer entry.now)) (tree_of value.now)) }
{
    if let Some(found) = totals.get_mut(&text.field) {
        return found.add_value(alloc, analyzers, entry, text, value, texts);
    }
    let mut first = FieldTotals::new(alloc);
    let rises = first.add_value(alloc, analyzers, entry, text, value, texts)?;
    totals.insert(text.field, first)?;
    Ok(rises)
}

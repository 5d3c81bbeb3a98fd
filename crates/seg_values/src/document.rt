//! A document: fields with values, in order.
ghost use Rattle.std.specs.Prelude.{◌≡◌, ℕ, ◌<◌, [], ◌∷◌, ◌++◌, length, nat_eq, slice_get, Some, option_map, OnOk, OnErr, IsOkUnless};
ghost use Rattle.std.specs.Map.{lookup};
ghost use Rattle.seg_values.specs.Tree as trees;
ghost use Rattle.seg_values.specs.ValueTrees.{tree_of};

use crate::document_trait::Document;
use crate::schema::Field;
use crate::value::OwnedValue;
use crate::value_error::ValueError;
use seg_tokens::Text;
use std::alloc::{AllocError, Global};
use std::fmt::{self, Debug, Formatter, Write};
use std::marker::Model;

/// A field with a value.
#[derive(Drop)]
pub struct FieldValue {
    pub(crate) field: Field,
    pub(crate) value: OwnedValue,
}

/// Fields with values, in the order of addition.
#[derive(Drop)]
pub struct TantivyDocument {
    pub(crate) pairs: Vec<FieldValue>,
}

impl Model for TantivyDocument {
    ghost use Rattle.std.specs.Prelude.{List, ℕ, map};
    ghost use Rattle.std.specs.Coded.{coded_list, coded×, coded_ℕ};
    ghost use Rattle.seg_values.specs.Tree.{Tree};
    ghost use Rattle.seg_values.specs.ValueCodes.{tree_code};

    ghost Value = { List (ℕ × Tree) };

    ghost coded = { coded_list (coded× coded_ℕ tree_code) };

    ghost use Rattle.seg_values.specs.ValueTrees.{pair_of};

    ghost view = { λ a. map pair_of a.pairs.items };
}

impl TantivyDocument {
    pub fn new(alloc: Global) -> TantivyDocument
        ensures { result ≡ [] }
    {
        TantivyDocument {
            pairs: Vec::new(alloc),
        }
    }

    pub fn len(&self) -> usize
        ensures { result ≡ length self.now }
    {
        self.pairs.len()
    }

    pub fn add_field_value(&mut self, field: Field, value: OwnedValue) -> Result<(), ValueError>
        ensures ok { OnOk result (self.new ≡ self.old ++ (field, tree_of value) ∷ []) }
        ensures err { OnErr result (self.new ≡ self.old) }
        ensures memory { IsOkUnless result ValueError.OutOfMemory }
    {
        self.push(field, value)?;
        Ok(())
    }

    pub fn add_text(&mut self, field: Field, text: &str) -> Result<(), ValueError>
        ensures ok { OnOk result
            (self.new ≡ self.old ++ (field, trees.leaf (trees.text text.now)) ∷ []) }
        ensures err { OnErr result (self.new ≡ self.old) }
        ensures memory { IsOkUnless result ValueError.OutOfMemory }
    {
        let text = Text::copy_of(*self.pairs.allocator(), text)?;
        self.add_field_value(field, OwnedValue::Str(text))
    }

    fn push(&mut self, field: Field, value: OwnedValue) -> Result<(), AllocError>
        ensures ok { OnOk result (self.new ≡ self.old ++ (field, tree_of value) ∷ []) }
        ensures err { OnErr result (self.new ≡ self.old) }
    {
        self.pairs.push(FieldValue { field, value })?;
        Ok(())
    }

    /// The first value of a field.
    pub fn get_first(&self, field: Field) -> Option<&OwnedValue>
        ensures { option_map (λ v. tree_of v.now) result ≡ lookup (nat_eq field) self.now }
    {
        for pair in &self.pairs {
            if field == pair.field {
                return Some(&pair.value);
            }
        }
        None
    }

    pub fn pair(&self, at: usize) -> (Field, &OwnedValue)
        requires { at < length self.now }
        ensures { slice_get self.now at ≡ Some (result.0, tree_of result.1.now) }
    {
        let pair = &self.pairs[at];
        (pair.field, &pair.value)
    }
}

impl Document for TantivyDocument {
    ghost pairs_of = { λ d. d };

    fn len(&self) -> usize {
        self.len()
    }

    fn pair(&self, at: usize) -> (Field, &OwnedValue) {
        self.pair(at)
    }
}

impl Debug for FieldValue {
    fn fmt<W: Write>(&self, f: &mut Formatter<W>) -> fmt::Result {
        f.debug_tuple("")
            .field(&self.field)
            .field(&self.value)
            .finish()
    }
}

/// A list of pairs.
impl Debug for TantivyDocument {
    fn fmt<W: Write>(&self, f: &mut Formatter<W>) -> fmt::Result {
        self.pairs.fmt(f)
    }
}

/// Documents, in order.
#[derive(Drop)]
pub struct Documents {
    documents: Vec<TantivyDocument>,
}

impl Model for Documents {
    ghost use Rattle.std.specs.Prelude.{List};
    ghost use Rattle.std.specs.Coded.{coded_list, coded×, coded_ℕ};
    ghost use Rattle.seg_values.specs.Tree.{Document};
    ghost use Rattle.seg_values.specs.ValueCodes.{tree_code};

    ghost Value = { List Document };

    ghost coded = { coded_list (coded_list (coded× coded_ℕ tree_code)) };

    ghost view = { λ a. a.documents.items };
}

impl Documents {
    pub fn new(alloc: Global) -> Documents
        ensures { result ≡ [] }
    {
        Documents {
            documents: Vec::new(alloc),
        }
    }

    pub fn push(&mut self, document: TantivyDocument) -> Result<(), AllocError>
        ensures ok { OnOk result (self.new ≡ self.old ++ document ∷ []) }
        ensures err { OnErr result (self.new ≡ self.old) }
    {
        self.documents.push(document)?;
        Ok(())
    }

    pub fn as_slice(&self) -> &[TantivyDocument]
        ensures { result.now ≡ self.now }
    {
        &self.documents
    }
}

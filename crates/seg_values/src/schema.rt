//! Fields and schemas.
ghost use Rattle.std.specs.Prelude.{◌≡◌, List, ℕ, ◌<◌, ◌+◌, ◌-◌, ◌^◌, ◌++◌, [], ◌∷◌, ◌↔◌, ◌⊎◌, length, slice_get, Some, None, Err, true, IfOk, IfErr, IfSome, OnOk, OnErr, IsSome};
ghost use Rattle.seg_values.specs.IndexedFields.{has_lengths, is_indexed};
ghost use Rattle.seg_values.specs.FieldNames.{field_named, kept_entry, is_allowed};
ghost use Rattle.seg_values.specs.SchemaRules.{is_schema};

use crate::error::{SchemaCause, TResult, TantivyError};
use crate::schema_fields::SchemaFields;
use seg_common::{DateTimePrecision, Room, Shared};
use seg_tokens::Text;
use std::alloc::Global;
use std::fmt::{self, Debug, Formatter, Write};
use std::marker::Model;

/// What a field's values are.
#[derive(Clone, Copy, Debug, PartialEq, Eq)]
pub enum FieldKind {
    Text,
    U64,
    I64,
    Bool,
    Date,
    Facet,
    Bytes,
    IpAddr,
    Json,
}

/// Whether a field is indexed, and what its terms record.
#[derive(Clone, Copy, Debug, PartialEq, Eq)]
pub enum IndexOption {
    No,
    Basic,
    Freqs,
    Positions,
}

/// A field of a schema.
#[derive(Debug, PartialEq, Eq, Drop)]
pub struct FieldEntry {
    pub name: Text,
    pub kind: FieldKind,
    pub stored: bool,
    pub index: IndexOption,
    pub tokenizer: Option<Text>,
    pub norms: bool,
    pub fast: bool,
    pub fast_tokenizer: Option<Text>,
    pub precision: DateTimePrecision,
    pub expand_dots: bool,
}

impl FieldEntry {
    pub fn is_indexed(&self) -> bool
        ensures { result ≡ is_indexed self.now }
    {
        match self.index {
            IndexOption::No => false,
            _ => true,
        }
    }

    /// Whether each document has a length in this field.
    pub fn has_field_norms(&self) -> bool
        ensures { result ≡ has_lengths self.now }
    {
        self.is_indexed() && self.norms
    }
}

/// A place in a schema.
#[derive(Clone, Copy, Debug, PartialEq, Eq, PartialOrd, Ord, Hash)]
pub struct Field {
    id: u32,
}

impl Model for Field {
    ghost Value = { ℕ };

    ghost view = { λ a. a.id };

    ghost inverse = { λ n. record { id = n } };
}

impl Field {
    pub fn from_field_id(id: u32) -> Field
        ensures { result ≡ id }
    {
        Field { id }
    }

    pub fn field_id(self) -> u32
        ensures { result ≡ self }
    {
        self.id
    }
}

/// Field entries, in order. A copy shares them.
#[derive(Drop)]
pub struct Schema {
    // `None` where there is no field.
    fields: Option<Shared<SchemaFields>>,
}

impl Model for Schema {
    ghost use Rattle.std.specs.Prelude.{List, []};
    ghost use Rattle.std.specs.Option.{unwrap_or};
    ghost use Rattle.seg_values.specs.declared.schema.FieldEntry.{FieldEntry};

    ghost Value = { List FieldEntry };

    ghost view = { λ a. unwrap_or a.fields [] };
}

impl Schema {
    /// What a builder made sure of: distinct names, options that go with their kinds, and no more fields than can be
    /// numbered.
    pub fn fields_are_valid(&self)
        ensures { is_schema self.now ≡ true }
    {
        if let Some(fields) = &self.fields {
            fields.get().are_valid();
        }
    }

    pub fn fields(&self) -> &[FieldEntry]
        ensures { result.now ≡ self.now }
    {
        match &self.fields {
            Some(fields) => fields.get().entries(),
            None => &[],
        }
    }

    pub fn num_fields(&self) -> usize
        ensures { result ≡ length self.now }
    {
        self.fields().len()
    }

    pub fn get_field_entry(&self, field: Field) -> &FieldEntry
        requires { field < length self.now }
        ensures { slice_get self.now field ≡ Some result.now }
    {
        &self.fields()[field.id as usize]
    }

    /// The field with a name.
    pub fn get_field(&self, name: &str) -> TResult<Field>
        ensures ok { IfOk result (λ f. field_named self.now name.now ≡ Some f) }
        ensures err { IfErr result (λ e. (e ≡ TantivyError.FieldNotFound) × (field_named self.now name.now ≡ None)) }
    {
        match self.place(name) {
            Some(id) => Ok(Field { id }),
            None => Err(TantivyError::FieldNotFound),
        }
    }

    fn place(&self, name: &str) -> Option<u32>
        ensures { result ≡ field_named self.now name.now }
    {
        match &self.fields {
            Some(fields) => fields.get().place(name),
            None => None,
        }
    }

    /// Another owner of the same entries: no memory is taken.
    pub fn share(&self) -> Schema
        ensures { result ≡ self.now }
    {
        match &self.fields {
            Some(fields) => Schema {
                fields: Some(fields.share()),
            },
            None => Schema { fields: None },
        }
    }

    /// `share` in the form of the copies that take memory. It never fails.
    pub fn try_clone(&self, _alloc: Global) -> TResult<Schema>
        ensures { result ≡ Ok self.now }
    {
        Ok(self.share())
    }
}

impl Debug for Schema {
    fn fmt<W: Write>(&self, f: &mut Formatter<W>) -> fmt::Result {
        f.debug_struct("Schema")
            .field("entries", &self.fields())
            .finish()
    }
}

/// A schema under way.
#[derive(Drop)]
pub struct SchemaBuilder {
    fields: SchemaFields,
    // For the fields of the schema, from the first one on: so `build` takes no memory.
    room: Option<Room<SchemaFields>>,
}

impl Model for SchemaBuilder {
    ghost use Rattle.std.specs.Prelude.{◌≡◌, ◌⊎◌, List, [], IsSome};
    ghost use Rattle.seg_values.specs.declared.schema.FieldEntry.{FieldEntry};

    ghost Value = { List FieldEntry };

    ghost view = { λ a. a.fields };

    ghost invariant = { λ a. IsSome a.room ⊎ (a.fields ≡ []) };
}

impl SchemaBuilder {
    pub fn new(alloc: Global) -> SchemaBuilder
        ensures { result ≡ [] }
    {
        SchemaBuilder {
            fields: SchemaFields::new(alloc),
            room: None,
        }
    }

    /// Adds a field. A facet is always indexed by its documents alone, fast, and without lengths.
    pub fn add_field(&mut self, entry: FieldEntry) -> TResult<Field>
        requires few { length self.old + 1 < 2 ^ 32 - 1 }
        requires allowed { is_allowed entry.kind entry.index ≡ true }
        ensures ok { IfOk result (λ f. (f ≡ length self.old) × (self.new ≡ self.old ++ kept_entry entry ∷ [])) }
        ensures distinct { OnOk result (field_named self.old entry.name ≡ None) }
        ensures duplicate { result ≡ Err (TantivyError.SchemaError SchemaCause.DuplicateName)
            → IsSome (field_named self.old entry.name) }
        ensures causes { IfErr result (λ e. (e ≡ TantivyError.SchemaError SchemaCause.DuplicateName)
            ⊎ (e ≡ TantivyError.OutOfMemory)) }
        ensures err { OnErr result (self.new ≡ self.old) }
    {
        if self.fields.place(entry.name.as_str()).is_some() {
            return Err(TantivyError::SchemaError(SchemaCause::DuplicateName));
        }
        let id = self.fields.entries().len() as u32;
        if self.room.is_none() {
            self.room = Some(Room::take(self.fields.allocator())?);
        }
        self.fields.push(kept(entry))?;
        Ok(Field { id })
    }

    pub fn build(self) -> Schema
        ensures { result ≡ self }
    {
        let SchemaBuilder { fields, room } = self;
        match room {
            Some(room) => Schema {
                fields: Some(room.fill(fields)),
            },
            None => Schema { fields: None },
        }
    }
}

/// The entry as it is kept.
fn kept(entry: FieldEntry) -> FieldEntry
    ensures { result ≡ kept_entry entry }
{
    match entry.kind {
        FieldKind::Facet => FieldEntry {
            index: IndexOption::Basic,
            fast: true,
            norms: false,
            ..entry
        },
        _ => entry,
    }
}

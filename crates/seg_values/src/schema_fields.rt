//! The entries of a schema, with their places by name.
ghost use Rattle.std.specs.Prelude.{◌≡◌, ◌<◌, ◌+◌, ◌-◌, ◌^◌, ◌++◌, ◌∷◌, [], true, None, length, OnErr, OnOk};
ghost use Rattle.seg_values.specs.FieldNames.{field_named};
ghost use Rattle.seg_values.specs.SchemaRules.{is_entry, is_schema};

use crate::schema::FieldEntry;
use std::alloc::{AllocError, Global};
use std::collections::HashMap;
use std::marker::Model;

#[derive(Drop)]
pub(crate) struct SchemaFields {
    entries: Vec<FieldEntry>,
    places: HashMap<String, u32>,
}

impl Model for SchemaFields {
    ghost use Rattle.std.specs.Prelude.{List, ℕ, ◌≡◌, true};
    ghost use Rattle.std.specs.HashMap.{get_by_text};
    ghost use Rattle.seg_values.specs.declared.schema.FieldEntry.{FieldEntry};

    ghost Value = { List FieldEntry };

    ghost use Rattle.seg_values.specs.FieldNames.{field_named};
    ghost use Rattle.seg_values.specs.SchemaRules.{is_schema};

    ghost view = { λ a. a.entries.items };

    ghost invariant = { λ a. (is_schema a.entries.items ≡ true)
        × ((name : List ℕ) → get_by_text a.places name ≡ field_named a.entries.items name) };
}

impl SchemaFields {
    pub(crate) fn new(alloc: Global) -> SchemaFields
        ensures { result ≡ [] }
    {
        SchemaFields {
            entries: Vec::new(alloc),
            places: HashMap::new(alloc),
        }
    }

    pub(crate) fn are_valid(&self)
        ensures { is_schema self.now ≡ true }
    {
        let _entries = &self.entries;
    }

    pub(crate) fn entries(&self) -> &[FieldEntry]
        ensures { result.now ≡ self.now }
    {
        &self.entries
    }

    /// The place of a name.
    pub(crate) fn place(&self, name: &str) -> Option<u32>
        ensures { result ≡ field_named self.now name.now }
    {
        self.places.get(name).copied()
    }

    pub(crate) fn allocator(&self) -> Global {
        *self.entries.allocator()
    }

    /// Adds an entry whose name is new.
    pub(crate) fn push(&mut self, entry: FieldEntry) -> Result<(), AllocError>
        requires few { length self.old + 1 < 2 ^ 32 - 1 }
        requires entry { is_entry entry ≡ true }
        requires new { field_named self.old entry.name ≡ None }
        ensures ok { OnOk result (self.new ≡ self.old ++ entry ∷ []) }
        ensures err { OnErr result (self.new ≡ self.old) }
    {
        let id = self.entries.len() as u32;
        let name = String::from_str(self.allocator(), entry.name.as_str())?;
        self.entries.push(entry)?;
        match self.places.insert(name, id) {
            Ok(_) => Ok(()),
            Err(_) => {
                self.entries.pop();
                Err(AllocError)
            }
        }
    }
}

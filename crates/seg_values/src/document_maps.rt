//! Documents as maps, of which each field has one value.
ghost use Rattle.std.specs.Prelude.{map, IfOk, OnOk};
ghost use Rattle.seg_values.specs.LastValues.{HasLastValues, PutsValue};
ghost use Rattle.seg_values.specs.ValueTrees.{entry_pair, tree_of};

use crate::document::TantivyDocument;
use crate::schema::Field;
use crate::value::OwnedValue;
use std::alloc::{AllocError, Global};
use std::collections::{BTreeMap, HashMap};

impl TantivyDocument {
    /// The last value of each field. Values are moved.
    pub fn into_btree_map(self, alloc: Global) -> Result<BTreeMap<Field, OwnedValue>, AllocError>
        ensures { IfOk result (λ m. HasLastValues (map entry_pair m.entries) self) }
    {
        let mut values = BTreeMap::new(alloc);
        for pair in self.pairs {
            put_ordered(&mut values, pair.field, pair.value)?;
        }
        Ok(values)
    }

    /// The last value of each field. Values are moved.
    pub fn into_hash_map(self, alloc: Global) -> Result<HashMap<Field, OwnedValue>, AllocError>
        ensures { IfOk result (λ m. HasLastValues (map entry_pair m.entries) self) }
    {
        let mut values = HashMap::new(alloc);
        for pair in self.pairs {
            put_hashed(&mut values, pair.field, pair.value)?;
        }
        Ok(values)
    }
}

fn put_ordered(
    values: &mut BTreeMap<Field, OwnedValue>,
    field: Field,
    value: OwnedValue,
) -> Result<(), AllocError>
    ensures { OnOk result
        (PutsValue (map entry_pair values.old.entries) (field, tree_of value) (map entry_pair values.new.entries)) }
{
    drop(values.insert(field, value)?);
    Ok(())
}

fn put_hashed(
    values: &mut HashMap<Field, OwnedValue>,
    field: Field,
    value: OwnedValue,
) -> Result<(), AllocError>
    ensures { OnOk result
        (PutsValue (map entry_pair values.old.entries) (field, tree_of value) (map entry_pair values.new.entries)) }
{
    drop(values.insert(field, value)?);
    Ok(())
}

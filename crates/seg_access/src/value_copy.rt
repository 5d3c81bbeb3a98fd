//! An owned value, made from what a reference is read as.
ghost use Rattle.std.specs.Prelude.{◌≡◌, IfOk, IsOkUnless};
ghost use Rattle.seg_values.specs.ValueTrees.{tree_of};

use crate::readable::{Lent, Readable, Reading};
use crate::value::Value;
use seg_tokens::Text;
use seg_values::{Members, OwnedValue, ValueError, Values};
use std::alloc::{AllocError, Global};
use std::convert::AsStr;
use std::marker::PhantomData;

/// A copy of a value, whatever type holds it: its own value of the same tree.
pub fn to_owned_value<'a, V: Value<'a>>(alloc: Global, value: V) -> Result<OwnedValue, ValueError>
    ensures ok { IfOk result (λ owned. tree_of owned ≡ V.tree value) }
    ensures memory { IsOkUnless result ValueError.OutOfMemory }
{
    let lent = Lent {
        value,
        of: PhantomData,
    };
    Ok(read_owned(alloc, lent)?)
}

#[cycle(owning)]
fn read_owned<R: Readable>(alloc: Global, value: R) -> Result<OwnedValue, AllocError>
    ensures { IfOk result (λ owned. tree_of owned ≡ R.tree value) }
{
    match value.read(alloc)? {
        Reading::Leaf(leaf) => Ok(leaf),
        Reading::Array(items) => Ok(OwnedValue::Array(own_items::<R>(alloc, items)?)),
        Reading::Object(members) => Ok(OwnedValue::Object(own_members::<R>(alloc, members)?)),
    }
}

#[cycle(owning)]
fn own_items<R: Readable>(alloc: Global, items: R::Items) -> Result<Values, AllocError>
    ensures { IfOk result (λ owned. owned ≡ R.items_left items) }
{
    let mut owned = Values::new(alloc);
    for item in items {
        owned.push(read_owned(alloc, item)?)?;
    }
    Ok(owned)
}

#[cycle(owning)]
fn own_members<R: Readable>(alloc: Global, members: R::Members) -> Result<Members, AllocError>
    ensures { IfOk result (λ owned. owned ≡ R.members_left members) }
{
    let mut owned = Members::new(alloc);
    for (key, value) in members {
        let key = Text::copy_of(alloc, key.as_str())?;
        owned.push(key, read_owned(alloc, value)?)?;
    }
    Ok(owned)
}

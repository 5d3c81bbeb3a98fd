//! Which values a field takes.
ghost use Rattle.std.specs.Prelude.{◌≡◌};
ghost use Rattle.seg_model.specs.Fields as fields;
ghost use Rattle.seg_model.specs.AcceptedTrees as taking;
ghost use Rattle.seg_values.specs.ValueTrees.{tree_of};

use seg_values::{FieldEntry, FieldKind, OwnedValue};

/// Whether a field takes a value: a field that is neither indexed nor fast takes every one, and so does a JSON field.
pub(crate) fn takes(entry: &FieldEntry, value: &OwnedValue) -> bool
    ensures { result ≡ taking.takes entry.now (tree_of value.now) }
{
    if is_json(entry.kind) {
        return true;
    }
    if entry.is_indexed() {
        return is_own_leaf(entry.kind, value);
    }
    if entry.fast {
        return is_own_array(entry.kind, value);
    }
    true
}

pub(crate) fn is_json(kind: FieldKind) -> bool
    ensures { result ≡ fields.is_json kind }
{
    match kind {
        FieldKind::Json => true,
        _ => false,
    }
}

/// A leaf of the kind's own; a text field has pre-tokenized texts too.
pub fn is_own_leaf(kind: FieldKind, value: &OwnedValue) -> bool
    ensures { result ≡ taking.is_own_leaf kind (tree_of value.now) }
{
    match (kind, value) {
        (FieldKind::Text, OwnedValue::Str(_)) => true,
        (FieldKind::Text, OwnedValue::PreTokStr(_)) => true,
        (FieldKind::U64, OwnedValue::U64(_)) => true,
        (FieldKind::I64, OwnedValue::I64(_)) => true,
        (FieldKind::Bool, OwnedValue::Bool(_)) => true,
        (FieldKind::Date, OwnedValue::Date(_)) => true,
        (FieldKind::Facet, OwnedValue::Facet(_)) => true,
        (FieldKind::Bytes, OwnedValue::Bytes(_)) => true,
        (FieldKind::IpAddr, OwnedValue::IpAddr(_)) => true,
        _ => false,
    }
}

/// A value of the kind's own, null, or an array of these, nested.
#[tactic(auto, using(crate::proofs::ListTails::drop_at))]
fn is_own_array(kind: FieldKind, value: &OwnedValue) -> bool
    ensures { result ≡ taking.is_own_array kind (tree_of value.now) }
{
    match value {
        OwnedValue::Array(values) => {
            for at in 0..values.len() {
                if !is_own_array(kind, values.get(at)) {
                    return false;
                }
            }
            true
        }
        OwnedValue::Null => true,
        _ => is_own_leaf(kind, value),
    }
}

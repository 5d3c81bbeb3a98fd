//! Filters, and the batches that they are for.
ghost use Rattle.std.specs.Prelude.{◌≡◌, List, Bool, true, map};
ghost use Rattle.seg_model.specs.Fields as model;
ghost use Rattle.seg_model.specs.Operations.{additions, batches};
ghost use Rattle.seg_model.specs.ValidInputs.{cuts_fit, filter_fits, filters_fit};
ghost use Rattle.seg_check.specs.UserOperations.{operation_of};

use crate::UserOperation;
use crate::batch_cuts::num_additions;
use seg_bits::AliveBitSet;
use seg_values::TantivyDocument;

/// Whether there is one filter, or none, for each batch, of as many documents as the batch adds.
pub(crate) fn filters_fit(
    operations: &[UserOperation<TantivyDocument>],
    cuts: &[usize],
    filters: &[Option<AliveBitSet>],
) -> bool
    requires { cuts_fit (map operation_of operations.now) cuts.now ≡ true }
    ensures { (schema : model.Schema) (analyzer : model.Analyzer)
        → result ≡ filters_fit filters.now (batches schema analyzer cuts.now (map operation_of operations.now)) }
{
    if filters.len() != cuts.len() + 1 {
        return false;
    }
    let mut from = 0;
    let mut left = operations;
    for (cut, filter) in cuts.iter().zip(filters) {
        let (batch, following) = left.split_at(*cut - from);
        if !filter_fits(filter, batch) {
            return false;
        }
        from = *cut;
        left = following;
    }
    filter_fits(&filters[cuts.len()], left)
}

fn filter_fits(filter: &Option<AliveBitSet>, batch: &[UserOperation<TantivyDocument>]) -> bool
    ensures { (alive : List Bool)
        → result
        ≡ filter_fits filter.now (record { documents = additions (map operation_of batch.now); alive = alive }) }
{
    match filter {
        Some(filter) => filter.bitset().max_value() as usize == num_additions(batch),
        None => true,
    }
}

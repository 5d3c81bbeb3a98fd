//! Where cuts divide operations.
ghost use Rattle.std.specs.Prelude.{◌≡◌, length, map};
ghost use Rattle.seg_model.specs.Operations.{additions};
ghost use Rattle.seg_model.specs.ValidInputs.{cuts_fit, batches_fit};
ghost use Rattle.seg_check.specs.UserOperations.{operation_of};

use crate::UserOperation;
use seg_values::TantivyDocument;

/// The most cuts: there are fewer than 2^32 batches, one more than cuts.
const MAX_CUTS: usize = 0xffff_fffe;

/// Whether cuts never fall, and none passes the end of the operations.
pub(crate) fn cuts_fit(operations: &[UserOperation<TantivyDocument>], cuts: &[usize]) -> bool
    ensures { result ≡ cuts_fit (map operation_of operations.now) cuts.now }
{
    let mut from = 0;
    for cut in cuts {
        if *cut < from || *cut > operations.len() {
            return false;
        }
        from = *cut;
    }
    true
}

/// Whether there are fewer than 2^32 batches.
pub(crate) fn batches_fit(cuts: &[usize]) -> bool
    ensures { result ≡ batches_fit cuts.now }
{
    cuts.len() <= MAX_CUTS
}

/// How many documents some operations add.
pub(crate) fn num_additions(operations: &[UserOperation<TantivyDocument>]) -> usize
    ensures { result ≡ length (additions (map operation_of operations.now)) }
{
    let mut number = 0;
    for operation in operations {
        if let UserOperation::Add(_) = operation {
            number += 1;
        }
    }
    number
}

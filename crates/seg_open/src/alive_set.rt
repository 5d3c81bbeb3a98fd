//! Which documents of a segment are alive.
ghost use Rattle.std.specs.Prelude.{◌≡◌, ℕ, Some, not, length, option_map, IfOk, IfSome};
ghost use Rattle.std.specs.List.{count_by};
ghost use Rattle.seg_meta.specs.Metas.{deletes_of};
ghost use Rattle.seg_model.specs.Operations.{filtered_by};
ghost use Rattle.seg_open.specs.Answers.{seen_as};
ghost use Rattle.seg_open.specs.OpenSegment.{LacksSome, alive_of};
ghost use Rattle.seg_open.specs.OpeningSteps.{IsCut, ReadsAlive, alive_in};

use seg_bits::{AliveBitSet, intersect_alive_bitsets};
use seg_common::{FileName, OwnedBytes, SegmentId};
use seg_directory::{Directory, read_file};
use seg_meta::DeleteMeta;
use seg_values::{TResult, TantivyError};
use std::alloc::{AllocError, Global};

/// Which documents of a segment of this many are alive, as its alive file says; without deletes there is none, and all
/// are.
pub(crate) fn read_deletes<W: Directory>(
    alloc: Global,
    id: SegmentId,
    max_doc: u32,
    deletes: Option<DeleteMeta>,
    directory: &mut W,
) -> TResult<Option<AliveBitSet>>
    ensures { ReadsAlive id max_doc (option_map deletes_of deletes) (seen_as (alive_of max_doc) result)
        (W.state directory.old)
        (W.state directory.new) }
{
    let Some(deletes) = deletes else {
        return Ok(None);
    };
    match read_alive_file(alloc, id, max_doc, deletes, directory) {
        Ok(alive) => Ok(Some(alive)),
        Err(e) => Err(e),
    }
}

/// The set of an alive file; its bytes are of no such set where it is `DataCorruption`.
fn read_alive_file<W: Directory>(
    alloc: Global,
    id: SegmentId,
    max_doc: u32,
    deletes: DeleteMeta,
    directory: &mut W,
) -> TResult<AliveBitSet>
    ensures { ReadsAlive id max_doc (Some (deletes_of deletes)) result
        (W.state directory.old)
        (W.state directory.new) }
{
    let opstamp = deletes.opstamp;
    let bytes = match read_file(alloc, directory, FileName::Alive(id, opstamp)) {
        Ok(bytes) => bytes,
        Err(e) => return Err(e),
    };
    match agreeing_set(bytes, max_doc, deletes) {
        Some(alive) => Ok(alive),
        None => Err(TantivyError::DataCorruption {
            name: FileName::Alive(id, opstamp),
        }),
    }
}

/// The set that bytes have, where it says which of this many documents are alive, and as many are not as there are
/// deletes.
fn agreeing_set(bytes: OwnedBytes, max_doc: u32, deletes: DeleteMeta) -> Option<AliveBitSet>
    ensures { result ≡ alive_in max_doc (deletes_of deletes) bytes }
{
    let Ok(alive) = AliveBitSet::open(bytes) else {
        return None;
    };
    if alive.bitset().max_value() != max_doc {
        return None;
    }
    if num_deleted(&alive) != deletes.num_deleted_docs {
        return None;
    }
    Some(alive)
}

/// How many documents are not alive.
pub(crate) fn num_deleted(alive: &AliveBitSet) -> u32
    ensures { result ≡ count_by not alive.now }
{
    alive.bitset().max_value() - alive.num_alive_docs() as u32
}

/// Which of the documents that are alive are asked for; none where those are all.
pub(crate) fn cut_by(
    alloc: Global,
    alive: Option<AliveBitSet>,
    custom: Option<AliveBitSet>,
    max_doc: u32,
) -> Result<Option<AliveBitSet>, AllocError>
    requires alive { IfSome alive (λ set. length set ≡ max_doc) }
    requires custom { IfSome custom (λ set. length set ≡ max_doc) }
    ensures cut { IfOk result (λ cut. alive_of max_doc cut ≡ filtered_by custom (alive_of max_doc alive)) }
    ensures lacks { IfOk result (LacksSome max_doc) }
{
    let both = in_both(alloc, alive, custom)?;
    Ok(unless_full(both))
}

/// The documents that are in both of two sets; no set stands for all.
fn in_both(
    alloc: Global,
    alive: Option<AliveBitSet>,
    custom: Option<AliveBitSet>,
) -> Result<Option<AliveBitSet>, AllocError>
    requires { (documents : ℕ) × IfSome alive (λ set. length set ≡ documents)
        × IfSome custom (λ set. length set ≡ documents) }
    ensures { IfOk result (λ both. (documents : ℕ) → IfSome alive (λ set. length set ≡ documents)
        → IfSome custom (λ set. length set ≡ documents) → IsCut documents alive custom both) }
{
    let Some(custom) = custom else {
        return Ok(alive);
    };
    let Some(alive) = alive else {
        return Ok(Some(custom));
    };
    match intersect_alive_bitsets(alloc, alive, custom) {
        Ok(both) => Ok(Some(both)),
        Err(_) => Err(AllocError),
    }
}

/// The set, where a document is missing from it.
fn unless_full(set: Option<AliveBitSet>) -> Option<AliveBitSet>
    ensures { (documents : ℕ) → IfSome set (λ s. length s ≡ documents)
        → (alive_of documents result ≡ alive_of documents set) × LacksSome documents result }
{
    let set = set?;
    if set.num_alive_docs() == set.bitset().max_value() as usize {
        return None;
    }
    Some(set)
}

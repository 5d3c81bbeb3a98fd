//! The generated input, whole.
ghost use Rattle.std.specs.Prelude.{◌≡◌, ◌∷◌, [], replicate, None, Err, IfOk, IfErr};
ghost use Rattle.std.specs.List.{range_with_len};
ghost use Rattle.seg_generate.specs.GeneratedInput.{cuts, generated};

use crate::documents::schema;
use crate::operations::operations;
use seg_bits::AliveBitSet;
use seg_check::BuildInput;
use seg_common::SegmentId;
use seg_meta::{DEFAULT_BLOCK_SIZE, IndexSettings};
use seg_values::Compressor;
use std::alloc::{AllocError, Global};

/// The input that a seed generates. All inputs have the same documents; the seed says which of each eight is deleted.
pub fn generated_input(alloc: Global, seed: u32) -> Result<BuildInput, AllocError>
    ensures { IfOk result (λ i. i ≡ generated seed) }
{
    let schema = schema(alloc)?;
    let operations = operations(alloc, seed)?;
    let cuts = cuts(alloc)?;
    let filters = no_filters(alloc)?;
    let ids = numbered_ids(alloc)?;
    Ok(BuildInput {
        schema,
        settings: IndexSettings {
            docstore_compression: Compressor::None,
            docstore_blocksize: DEFAULT_BLOCK_SIZE,
            docstore_compress_dedicated_thread: false,
        },
        operations,
        cuts,
        filters,
        ids,
    })
}

/// The places of the operations at which a batch ends and the next begins.
fn cuts(alloc: Global) -> Result<Vec<usize>, AllocError>
    ensures { IfOk result (λ c. c.items ≡ cuts) }
{
    Vec::from_slice(alloc, &[450usize, 900, 1350, 1800])
}

/// No filter for any batch.
fn no_filters(alloc: Global) -> Result<Vec<Option<AliveBitSet>>, AllocError>
    ensures { IfOk result (λ f. f.items ≡ replicate 5 None) }
{
    let mut filters = Vec::new(alloc);
    for _batch in 0..5u32 {
        filters.push(None)?;
    }
    Ok(filters)
}

/// The ids 1 to 6.
fn numbered_ids(alloc: Global) -> Result<Vec<SegmentId>, AllocError>
    ensures { IfOk result (λ i. i.items ≡ range_with_len 1 6) }
{
    let mut ids = Vec::new(alloc);
    for before in 0..6u32 {
        ids.push(SegmentId::from_u128(u128::from(before) + 1))?;
    }
    Ok(ids)
}

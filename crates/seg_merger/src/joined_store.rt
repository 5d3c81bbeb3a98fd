//! Stored documents, joined.
ghost use Rattle.std.specs.Prelude.{◌≡◌, ◌<◌, ◌+◌, ◌-◌, ◌^◌, ◌++◌, true, false, length, get_or, take, drop, None, option_map, IfErr, IfSome, OnOk};
ghost use Rattle.seg_model.specs.Operations.{kept};
ghost use Rattle.seg_store.specs.Store.{document_count, documents_of, raw_documents};
ghost use Rattle.seg_store.specs.WriterBlocks.{taken_count};
ghost use Rattle.seg_merger.specs.JoinedStore.{IsStored, is_stacked, joined_documents, kept_bytes, taken_documents, with_documents, with_segment, with_segments};

use seg_open::SegmentReader;
use seg_store::{StoreError, StoreWriter, documents_stay_in_order, stacked_blocks_stay_in_order};

/// At least this many blocks stay as they are; fewer are cut anew.
const LEAST_STACKED: usize = 6;

/// Adds the kept documents of segments, one segment after another. Their stored bytes are copied, and nothing is
/// decoded.
pub(crate) fn join_stores(
    parts: &[SegmentReader],
    writer: &mut StoreWriter,
) -> Result<(), StoreError>
    requires limit { IfSome writer.old (λ w. taken_count w + length (joined_documents parts.now) < 2 ^ 31) }
    ensures ok { OnOk result (writer.new ≡ option_map (with_segments parts.now) writer.old) }
    ensures documents { OnOk result (option_map taken_documents writer.new
        ≡ option_map (λ w. taken_documents w ++ joined_documents parts.now) writer.old) }
    ensures err { IfErr result (λ e. (e ≡ StoreError.OutOfMemory) × (writer.new ≡ None)) }
{
    documents_stay_in_order();
    stacked_blocks_stay_in_order();
    for part in parts {
        add_part(part, writer)?;
    }
    Ok(())
}

/// Adds the kept documents of a segment: its blocks as they are, where they are many and all documents are alive, and
/// else one document after another.
fn add_part(part: &SegmentReader, writer: &mut StoreWriter) -> Result<(), StoreError>
    requires limit { IfSome writer.old
        (λ w. taken_count w + length (kept part.now.alive (documents_of part.now.blocks)) < 2 ^ 31) }
    ensures ok { OnOk result (writer.new ≡ option_map (with_segment part.now) writer.old) }
    ensures stored { IsStored part.now }
    ensures err { IfErr result (λ e. (e ≡ StoreError.OutOfMemory) × (writer.new ≡ None)) }
{
    let count = stored_count(part);
    if is_stacked(part) {
        return writer.stack(part.store_reader());
    }
    add_documents(part, count, writer)
}

/// Whether the blocks of a segment stay as they are.
fn is_stacked(part: &SegmentReader) -> bool
    ensures { result ≡ is_stacked part.now }
{
    !part.has_deletes() && part.store_reader().block_count() >= LEAST_STACKED
}

/// Adds the kept documents of a segment, which stores this many, one after another.
fn add_documents(
    part: &SegmentReader,
    count: u32,
    writer: &mut StoreWriter,
) -> Result<(), StoreError>
    requires counted { count ≡ document_count part.now.blocks }
    requires limit { IfSome writer.old (λ w. taken_count w + length (kept_bytes part.now) < 2 ^ 31) }
    ensures ok { OnOk result (writer.new ≡ option_map (with_documents (kept_bytes part.now)) writer.old) }
    ensures err { IfErr result (λ e. (e ≡ StoreError.OutOfMemory) × (writer.new ≡ None)) }
{
    documents_stay_in_order();
    for doc in 0..count {
        add_document(part, doc, writer)?;
    }
    Ok(())
}

/// How many documents a segment stores; each can be read.
fn stored_count(part: &SegmentReader) -> u32
    ensures counted { result ≡ document_count part.now.blocks }
    ensures stored { IsStored part.now }
{
    part.documents_are_marked();
    part.contents_have_full_shape();
    part.store_reader().num_docs()
}

/// Adds a document, where it is kept.
fn add_document(part: &SegmentReader, doc: u32, writer: &mut StoreWriter) -> Result<(), StoreError>
    requires is { doc < document_count part.now.blocks }
    requires limit { get_or part.now.alive doc false ≡ true → IfSome writer.old (λ w. taken_count w < 2 ^ 31 - 1) }
    ensures ok { OnOk result (writer.new
        ≡ option_map
        (with_documents (kept (take 1 (drop doc part.now.alive)) (take 1 (drop doc (raw_documents part.now.blocks)))))
        writer.old) }
    ensures err { IfErr result (λ e. (e ≡ StoreError.OutOfMemory) × (writer.new ≡ None)) }
{
    if !part.is_alive(doc) {
        return Ok(());
    }
    writer.store_bytes(part.store_reader().raw(doc).as_slice())
}

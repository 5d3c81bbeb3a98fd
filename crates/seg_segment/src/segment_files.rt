//! The six files of a segment, as they were just made.
ghost use Rattle.std.specs.Prelude.{◌≡◌, IfOk};
ghost use Rattle.seg_directory.specs.DirectorySteps.{Works};
ghost use Rattle.seg_segment.specs.MadeFiles.{AreOfParts};
ghost use Rattle.seg_segment.specs.SegmentFiles.{bytes_of, write_steps};

use crate::component_files::write_components;
use seg_common::{OwnedBytes, SegmentComponent, SegmentId};
use seg_directory::Directory;
use seg_postings::PostingsFiles;
use seg_values::TResult;
use std::alloc::{AllocError, Global};

/// The most documents of a segment.
pub const MAX_DOCUMENTS: usize = 0x7fff_ffff;

/// The bytes of the six files of a segment.
#[derive(Drop)]
pub struct SegmentFiles {
    pub terms: OwnedBytes,
    pub store: OwnedBytes,
    pub postings: OwnedBytes,
    pub positions: OwnedBytes,
    pub fast_fields: OwnedBytes,
    pub field_norms: OwnedBytes,
}

impl SegmentFiles {
    /// The files of a segment that was just made, whose bytes aren't copied.
    pub fn from_parts(
        alloc: Global,
        terms: PostingsFiles,
        store: Vec<u8>,
        fast_fields: Vec<u8>,
        field_norms: Vec<u8>,
    ) -> Result<SegmentFiles, AllocError>
        ensures { IfOk result (AreOfParts terms store.items fast_fields.items field_norms.items) }
    {
        let PostingsFiles {
            terms,
            postings,
            positions,
        } = terms;
        Ok(SegmentFiles {
            terms: shared(alloc, terms)?,
            store: shared(alloc, store)?,
            postings: shared(alloc, postings)?,
            positions: shared(alloc, positions)?,
            fast_fields: shared(alloc, fast_fields)?,
            field_norms: shared(alloc, field_norms)?,
        })
    }

    /// The same bytes again; this takes no memory.
    pub fn share(&self) -> SegmentFiles
        ensures { result ≡ self.now }
    {
        SegmentFiles {
            terms: self.terms.share(),
            store: self.store.share(),
            postings: self.postings.share(),
            positions: self.positions.share(),
            fast_fields: self.fast_fields.share(),
            field_norms: self.field_norms.share(),
        }
    }

    /// Makes the six files under an id, in the order field norms, fast fields, terms, postings, positions, store.
    pub fn write<W: Directory>(
        &self,
        alloc: Global,
        id: SegmentId,
        directory: &mut W,
    ) -> TResult<()>
        ensures { Works (write_steps id self.now) result (W.state directory.old) (W.state directory.new) }
    {
        let components = [
            SegmentComponent::FieldNorms,
            SegmentComponent::FastFields,
            SegmentComponent::Terms,
            SegmentComponent::Postings,
            SegmentComponent::Positions,
            SegmentComponent::Store,
        ];
        write_components(alloc, directory, id, self, &components)
    }

    /// The bytes of the file of a component.
    pub(crate) fn of_component(&self, component: SegmentComponent) -> &[u8]
        ensures { result.now ≡ bytes_of self.now component }
    {
        match component {
            SegmentComponent::Terms => self.terms.as_slice(),
            SegmentComponent::Store => self.store.as_slice(),
            SegmentComponent::Postings => self.postings.as_slice(),
            SegmentComponent::Positions => self.positions.as_slice(),
            SegmentComponent::FastFields => self.fast_fields.as_slice(),
            SegmentComponent::FieldNorms => self.field_norms.as_slice(),
        }
    }
}

/// The bytes of a file, without a copy.
fn shared(alloc: Global, bytes: Vec<u8>) -> Result<OwnedBytes, AllocError>
    ensures { IfOk result (λ owned. owned ≡ bytes.items) }
{
    match OwnedBytes::from_vec(alloc, bytes) {
        Ok(owned) => Ok(owned),
        Err(_) => Err(AllocError),
    }
}

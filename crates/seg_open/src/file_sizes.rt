//! The sizes of the six files of a segment.
ghost use Rattle.std.specs.Prelude.{◌≡◌};
ghost use Rattle.seg_open.specs.FileSizes.{no_sizes, sizes_of};

use seg_segment::SegmentFiles;

/// How many bytes each of the six files has.
#[derive(Clone, Copy, Debug, PartialEq, Eq)]
pub struct FileSizes {
    pub terms: usize,
    pub store: usize,
    pub postings: usize,
    pub positions: usize,
    pub fast_fields: usize,
    pub field_norms: usize,
}

impl FileSizes {
    /// Those of no files yet.
    pub(crate) fn none() -> FileSizes
        ensures { result ≡ no_sizes }
    {
        FileSizes {
            terms: 0,
            store: 0,
            postings: 0,
            positions: 0,
            fast_fields: 0,
            field_norms: 0,
        }
    }

    pub(crate) fn of(files: &SegmentFiles) -> FileSizes
        ensures { result ≡ sizes_of files.now }
    {
        FileSizes {
            terms: files.terms.len(),
            store: files.store.len(),
            postings: files.postings.len(),
            positions: files.positions.len(),
            fast_fields: files.fast_fields.len(),
            field_norms: files.field_norms.len(),
        }
    }
}

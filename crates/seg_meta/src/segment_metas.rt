//! The segments that a meta lists.
ghost use Rattle.std.specs.Prelude.{◌≡◌, [], ◌∷◌, ◌++◌, OnOk, OnErr};

use crate::SegmentMeta;
use std::alloc::{AllocError, Global};
use std::marker::Model;

/// The segments that a meta lists, in order.
#[derive(Debug, Drop)]
pub struct SegmentMetas {
    segments: Vec<SegmentMeta>,
}

impl Model for SegmentMetas {
    ghost use Rattle.std.specs.Prelude.{List};
    ghost use Rattle.seg_meta.specs.IndexOfFiles.{ListedSegment};

    ghost Value = { List ListedSegment };

    ghost view = { λ a. a.segments.items };
}

impl SegmentMetas {
    pub fn new(alloc: Global) -> SegmentMetas
        ensures { result ≡ [] }
    {
        SegmentMetas {
            segments: Vec::new(alloc),
        }
    }

    pub fn push(&mut self, segment: SegmentMeta) -> Result<(), AllocError>
        ensures ok { OnOk result (self.new ≡ self.old ++ segment ∷ []) }
        ensures err { OnErr result (self.new ≡ self.old) }
    {
        self.segments.push(segment)?;
        Ok(())
    }

    pub fn as_slice(&self) -> &[SegmentMeta]
        ensures { result.now ≡ self.now }
    {
        &self.segments
    }
}

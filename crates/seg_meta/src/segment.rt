//! A segment of an index.
ghost use Rattle.std.specs.Prelude.{◌≡◌};

use crate::SegmentMeta;
use seg_common::SegmentId;
use seg_values::Schema;
use std::marker::Model;

/// A segment of an index: its meta, and the schema of its documents.
#[derive(Debug, Drop)]
pub struct Segment {
    schema: Schema,
    meta: SegmentMeta,
}

impl Model for Segment {
    ghost use Rattle.seg_meta.specs.Metas.{SegmentParts};

    ghost Value = { SegmentParts };

    ghost view = { λ a. record {
      schema = a.schema;
      meta = a.meta;
    } };
}

impl Segment {
    pub fn new(schema: Schema, meta: SegmentMeta) -> Segment
        ensures { result ≡ record {
          schema = schema;
          meta = meta;
        } }
    {
        Segment { schema, meta }
    }

    pub fn meta(&self) -> &SegmentMeta
        ensures { result.now ≡ self.now.meta }
    {
        &self.meta
    }

    pub fn schema(&self) -> &Schema
        ensures { result.now ≡ self.now.schema }
    {
        &self.schema
    }

    pub fn id(&self) -> SegmentId
        ensures { result ≡ self.now.meta.id }
    {
        self.meta.id()
    }
}

//! The meta of an index.

use crate::{IndexSettings, SegmentMetas};
use seg_tokens::Text;
use seg_values::Schema;

/// What an index says about itself.
#[derive(Debug, Drop)]
pub struct IndexMeta {
    pub index_settings: IndexSettings,
    pub segments: SegmentMetas,
    pub schema: Schema,
    /// The stamp of the last operation that the segments hold.
    pub opstamp: u64,
    /// A text that whoever wrote the index left there.
    pub payload: Option<Text>,
}

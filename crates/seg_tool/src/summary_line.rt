//! The line of a segment.
ghost use Rattle.std.specs.Prelude.{◌≡◌, ◌++◌, OnOk};
ghost use Rattle.seg_tool.specs.Summaries.{segment_summary};

use crate::summary_totals::totals_of;
use seg_generate::push_summary;
use seg_open::SegmentReader;
use std::alloc::AllocError;

/// Appends the line of a segment that is open. After an error it is open what `out` holds.
pub fn push_segment_summary(
    out: &mut Vec<u8>,
    label: &str,
    reader: &SegmentReader,
) -> Result<(), AllocError>
    ensures { OnOk result (out.new.items ≡ out.old.items ++ segment_summary label.now reader.now) }
{
    let totals = totals_of(reader)?;
    push_summary(
        out,
        label,
        reader.segment_id(),
        u64::from(reader.max_doc()),
        u64::from(reader.num_docs()),
        totals,
    )
}

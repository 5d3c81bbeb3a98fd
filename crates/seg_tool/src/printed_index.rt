//! The text of an index, of what a directory answers.
ghost use Rattle.seg_open.specs.Answers.{seen_as};
ghost use Rattle.seg_tool.specs.PrintedIndex.{PrintsIndex, PrintsNext, ReadsText, all_of};

use crate::segment_text::push_segment;
use crate::words::Detail;
use seg_directory::Directory;
use seg_meta::{Index, Segment};
use seg_open::SegmentReader;
use seg_values::{TResult, TantivyError};
use std::alloc::Global;

/// Adds the text of the index that a directory has: reads its meta, and then opens each segment that it lists, and
/// prints it before the next.
pub(crate) fn print_index<W: Directory>(
    alloc: Global,
    out: Vec<u8>,
    label: &str,
    detail: Detail,
    directory: &mut W,
) -> TResult<Vec<u8>>
    ensures { PrintsIndex out.items label.now detail (seen_as (λ t. t.items) result)
        (W.state directory.old) (W.state directory.new) }
{
    let index = match Index::open(alloc, directory) {
        Ok(index) => index,
        Err(e) => return Err(e),
    };
    let Ok(segments) = index.searchable_segments(alloc) else {
        return Err(TantivyError::OutOfMemory);
    };
    print_segments(alloc, out, label, detail, &segments, directory)
}

/// Adds the text of segments of a directory, each opened and printed before the next.
fn print_segments<W: Directory>(
    alloc: Global,
    out: Vec<u8>,
    label: &str,
    detail: Detail,
    segments: &[Segment],
    directory: &mut W,
) -> TResult<Vec<u8>>
    ensures { ReadsText out.items label.now detail (all_of segments.now) (seen_as (λ t. t.items) result)
        (W.state directory.old) (W.state directory.new) }
{
    let mut text = out;
    for (at, segment) in segments.iter().enumerate() {
        match print_next(&mut text, alloc, label, detail, segment, directory) {
            Ok(()) => {}
            Err(e) => return Err(e),
        }
    }
    Ok(text)
}

/// Opens one segment, and adds its text.
fn print_next<W: Directory>(
    out: &mut Vec<u8>,
    alloc: Global,
    label: &str,
    detail: Detail,
    segment: &Segment,
    directory: &mut W,
) -> TResult<()>
    ensures { PrintsNext label.now detail segment.now result out.old.items out.new.items
        (W.state directory.old) (W.state directory.new) }
{
    let reader = match SegmentReader::open(alloc, segment, directory) {
        Ok(reader) => reader,
        Err(e) => return Err(e),
    };
    match push_segment(out, alloc, label, detail, &reader) {
        Ok(()) => Ok(()),
        Err(_) => Err(TantivyError::OutOfMemory),
    }
}

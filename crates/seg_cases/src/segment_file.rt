//! A merge of an index, of which a file of the segment has other bytes.

use crate::failure::Failure;
use crate::step_run::{directory, outcome};
use crate::tally::Outcome;
use seg_common::{FileName, SegmentComponent, SegmentId};
use seg_directory::MemoryDirectory;
use std::alloc::Global;

/// What is printed where a file of the segment is damaged, but for its ending; its id is as scripts give it.
const DAMAGED: &str = "7\ndamaged: 00000000000000000000000000000001.";

/// What a word prints over a script and a work directory, as it is with an output directory without files.
pub(crate) fn printed(
    alloc: Global,
    word: &str,
    script: &[u8],
    work: &mut MemoryDirectory,
) -> Result<String, Failure> {
    let words = vec![in alloc; String::from_str(alloc, word)?]?;
    let mut output = directory(alloc, "output", None)?;
    outcome(alloc, &words, script, work, &mut output)
}

/// What becomes of a merge of an index whose segment has these bytes in the file of an extension.
pub(crate) fn merge_outcome(
    alloc: Global,
    extension: &str,
    bytes: &[u8],
    work: &mut MemoryDirectory,
) -> Result<Outcome, Failure> {
    let Some(name) = file_name(extension) else {
        return Err(Failure::Case("no file of a segment ends so"));
    };
    work.put(name, bytes)?;
    let text = printed(alloc, "merge", &[], work)?;
    told(extension, text.as_str())
}

/// Which file the text of a merge tells of.
fn told(extension: &str, text: &str) -> Result<Outcome, Failure> {
    match text.strip_prefix(DAMAGED) {
        Some(ending) => match ending.strip_suffix("\n") {
            Some(told) if told == extension => Ok(Outcome::Refused),
            _ => Ok(Outcome::Disagreeing),
        },
        None if text.starts_with("output ") => Ok(Outcome::Read),
        None => Err(Failure::Case("a merge ends otherwise")),
    }
}

/// The name of the file of the segment with an extension, as `term` or `3.del`.
fn file_name(extension: &str) -> Option<FileName> {
    let id = SegmentId::from_u128(1);
    let component = match extension {
        "term" => SegmentComponent::Terms,
        "store" => SegmentComponent::Store,
        "idx" => SegmentComponent::Postings,
        "pos" => SegmentComponent::Positions,
        "fast" => SegmentComponent::FastFields,
        "fieldnorm" => SegmentComponent::FieldNorms,
        _ => {
            let stamp = extension.strip_suffix(".del")?.parse::<u64>().ok()?;
            return Some(FileName::Alive(id, stamp));
        }
    };
    Some(FileName::Part(id, component))
}

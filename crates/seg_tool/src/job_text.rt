//! The text of a job, written whole.
ghost use Rattle.seg_open.specs.Answers.{seen_as};
ghost use Rattle.seg_tool.specs.Runs.{WritesMade, WritesText, sink_state};

use crate::status::{Status, status_of};
use seg_common::{Sink, SinkFailed, write_whole};
use seg_values::{TResult, TantivyError};

/// Writes the text that a job made, or answers with the status of its error.
pub(crate) fn write_made<K: Sink>(sink: &mut K, made: TResult<Vec<u8>>) -> Status
    ensures { WritesMade (seen_as (λ t. t.items) made) result sink.old sink.new
        (sink_state (K.written sink.old) (K.faults sink.old)) (sink_state (K.written sink.new) (K.faults sink.new)) }
{
    match made {
        Ok(text) => write_text(sink, &text),
        Err(e) => status_of(e),
    }
}

/// Writes a whole text.
pub(crate) fn write_text<K: Sink>(sink: &mut K, text: &[u8]) -> Status
    ensures { WritesText text.now result
        (sink_state (K.written sink.old) (K.faults sink.old)) (sink_state (K.written sink.new) (K.faults sink.new)) }
{
    match write_whole(sink, text) {
        Ok(()) => Status::Done,
        Err(SinkFailed) => Status::Stream,
    }
}

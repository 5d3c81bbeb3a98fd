//! `generate`: from a number to the indexes of the input that it generates, and to their summary.
ghost use Rattle.seg_index_build.specs.TwoDirectories.{both};
ghost use Rattle.seg_open.specs.Answers.{seen_as};
ghost use Rattle.seg_tool.specs.Words.GenerateJob.{GeneratesText};

use crate::command::build_job::build_and_print;
use crate::words::Detail;
use seg_directory::Directory;
use seg_generate::generated_input;
use seg_tokens::Analyzers;
use seg_values::{TResult, TantivyError};
use std::alloc::Global;

/// Writes the indexes of the input that a number generates, and answers the summary that is then printed of them.
pub(crate) fn generate<Z: Analyzers, W: Directory, O: Directory>(
    alloc: Global,
    analyzers: &Z,
    seed: u32,
    work: &mut W,
    output: &mut O,
) -> TResult<Vec<u8>>
    ensures { GeneratesText (Z.knows analyzers.now) (Z.tokens_of analyzers.now) seed (seen_as (λ t. t.items) result)
        (both (W.state work.old) (O.state output.old)) (both (W.state work.new) (O.state output.new)) }
{
    let Ok(input) = generated_input(alloc, seed) else {
        return Err(TantivyError::OutOfMemory);
    };
    build_and_print(alloc, analyzers, input, Detail::Summary, work, output)
}

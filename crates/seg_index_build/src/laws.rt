//! The law of what is taken of batches.
ghost use Rattle.seg_index_build.specs.TakenBatches.{AnswersDetermineParts};

use seg_segment::files_spell_one_contents;

/// What a directory answered determines what was taken of batches, as `build_index` says it (`reads`).
pub fn answers_determine_parts()
    ensures { AnswersDetermineParts }
{
    files_spell_one_contents();
}

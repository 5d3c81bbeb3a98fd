//! Laws of the definitions.
ghost use Rattle.seg_model.specs.Laws.{TermsAnswer, NoOtherTerms, ColumnsAnswer, NoOtherColumns, MixedNumbersHaveNoColumns, BatchesPlayNoPart, PostingsGrow, ColumnsGrow, JoiningIsInvisible, JoinsGroupInOrder, JoinsHaveFullShape, ReadingsHaveFullShape, FullReadingsHaveTheReading, ValidInputsAreNotRefused};

/// A term list is known by what it answers at the bytes of each value.
pub fn terms_are_known_by_their_answers()
    ensures answers { TermsAnswer }
    ensures only { NoOtherTerms }
{}

/// Columns are known by what they answer at each key, and there are none exactly where the numbers of a path have no
/// type.
pub fn columns_are_known_by_their_answers()
    ensures answers { ColumnsAnswer }
    ensures only { NoOtherColumns }
    ensures mixed { MixedNumbersHaveNoColumns }
{}

/// Joining the full readings of documents gives the full reading of the live ones.
pub fn joining_is_invisible()
    ensures { JoiningIsInvisible }
{}

/// Joined group by group, in order, parts join to what they join to at once.
pub fn joins_group_in_order()
    ensures { JoinsGroupInOrder }
{}

/// What survives does not depend on how the operations are cut in batches.
pub fn batches_play_no_part()
    ensures { BatchesPlayNoPart }
{}

/// An index is built of an input exactly where none of the causes of a refusal holds.
pub fn valid_inputs_are_not_refused()
    ensures { ValidInputsAreNotRefused }
{}

/// Parts of full shape join to contents of full shape.
pub fn joins_have_full_shape()
    ensures { JoinsHaveFullShape }
{}

/// The full reading of sound documents is of full shape.
pub fn readings_have_full_shape()
    ensures { ReadingsHaveFullShape }
{}

/// The reading is a part of the full reading.
pub fn full_readings_have_the_reading()
    ensures { FullReadingsHaveTheReading }
{}

/// With one more document a term has one more posting where it occurs there, and a column one more row.
pub fn contents_grow_by_documents()
    ensures postings { PostingsGrow }
    ensures columns { ColumnsGrow }
{}

//! Laws of the definitions.
ghost use Rattle.seg_model.specs.RemovalLaws.{PostingsTellTerms, AliveByStamps, AliveByPostings, DeletesClearInTurn};

/// The postings of a term tell which documents have it.
pub fn postings_tell_terms()
    ensures { PostingsTellTerms }
{}

/// A delete removes exactly the documents with a smaller stamp that it deletes, in whatever batch.
pub fn alive_by_stamps()
    ensures { AliveByStamps }
{}

/// What is alive of a batch is told by the postings of its documents, and by stamps.
pub fn alive_by_postings()
    ensures { AliveByPostings }
{}

/// Deletes may be applied one after another, and those with no greater stamp than any document's left out.
pub fn deletes_clear_in_turn()
    ensures { DeletesClearInTurn }
{}

//! Laws of the terms of documents.
ghost use Rattle.seg_build.specs.WritableTerms.{TakenTermsCanBeWritten};

/// Of documents that are indexed the terms can be written: within a document the positions of a term don't fall, and
/// they are few and small enough, since the check of documents saw to it.
pub fn taken_terms_can_be_written()
    ensures { TakenTermsCanBeWritten }
{}

//! What a stored document is read as.
ghost use Rattle.seg_doc_bytes.specs.StoredDocumentLaw.{IsReadBack};

/// The stored form of a document reads as its stored pairs.
pub fn stored_documents_are_read()
    ensures { IsReadBack }
{}

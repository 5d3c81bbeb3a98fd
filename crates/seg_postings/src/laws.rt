//! What terms that are read are.
ghost use Rattle.seg_postings.specs.TermMaps.{TermsReadHaveShape};

/// The terms of a field that is read ascend, and each has the form that contents of full shape ask for.
pub fn terms_read_have_shape()
    ensures { TermsReadHaveShape }
{}

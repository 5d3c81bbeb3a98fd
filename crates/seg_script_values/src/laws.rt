//! What the texts are that are read.
ghost use Rattle.seg_script_values.specs.Laws.{AddressesAreTexts, PathsAreFacets};

/// A text is read as an address exactly where it is dotted or groups between colons (RFC 4291, section 2.2, without a
/// dotted tail).
pub fn addresses_are_texts()
    ensures { AddressesAreTexts }
{}

/// A text is read as a facet exactly where it is the path of one.
pub fn paths_are_facets()
    ensures { PathsAreFacets }
{}

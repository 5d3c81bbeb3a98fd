//! Texts read as facets.
ghost use Rattle.std.specs.Prelude.{◌≡◌, IfOk};
ghost use Rattle.seg_script_values.specs.FacetTexts.{facet_of};

use seg_values::{Facet, ValueError};
use std::alloc::{AllocError, Global};

/// The facet whose path a text is.
pub fn facet_from(alloc: Global, text: &str) -> Result<Option<Facet>, AllocError>
    ensures { IfOk result (λ facet. facet ≡ facet_of text.now) }
{
    match Facet::from_text(alloc, text) {
        Ok(facet) => Ok(Some(facet)),
        Err(ValueError::Malformed) => Ok(None),
        Err(_) => Err(AllocError),
    }
}

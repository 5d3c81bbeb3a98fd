//! Laws of the definitions.
ghost use Rattle.seg_termdict.specs.Laws.{BackwardIsReverse, MergedTermsAnswer, OrdinalsArePlaces, ReversedBoundsGiveNone};

/// Ordinals are the places of keys; reversed bounds give no terms; and a range gives the same terms backward as
/// forward.
pub fn ranges_of_sorted_terms<Info>()
    ensures ordinals { OrdinalsArePlaces Info }
    ensures reversed { ReversedBoundsGiveNone Info }
    ensures backward { BackwardIsReverse Info }
{}

/// Merged terms have each key once, with the segments that have it.
pub fn merged_terms_are_known_by_their_answers<Info>()
    ensures { MergedTermsAnswer Info }
{}

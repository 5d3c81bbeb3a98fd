//! Laws of the definitions.
ghost use Rattle.seg_bits.specs.BitSets.{AliveSetsMeet, SetsHaveOneForm};

/// Bytes that read as one set are the same.
pub fn sets_have_one_form()
    ensures { SetsHaveOneForm }
{}

/// What alive sets share does not depend on their order or grouping.
pub fn alive_sets_meet()
    ensures { AliveSetsMeet }
{}

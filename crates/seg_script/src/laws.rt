//! What every script holds.
ghost use Rattle.seg_script.specs.Laws.{ScriptsAreWellFormed};

/// A script has fields whose options go with their kinds, under distinct names, and operations on these fields.
pub fn scripts_are_well_formed()
    ensures { ScriptsAreWellFormed }
{}

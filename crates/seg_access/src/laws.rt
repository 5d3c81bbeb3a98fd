//! What the definitions say together.
ghost use Rattle.seg_access.specs.Laws.{SpellOneTree};

/// From a piece on at most one tree is spelled.
pub fn pieces_spell_one_tree()
    ensures { SpellOneTree }
{}

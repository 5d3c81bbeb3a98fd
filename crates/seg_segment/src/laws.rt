//! Laws of the six files of a segment.
ghost use Rattle.seg_segment.specs.Laws.{FilesSpellOneContents, HeldFilesSpell, HoldsOneContents};

/// Files spell at most one contents.
pub fn files_spell_one_contents()
    ensures { FilesSpellOneContents }
{}

/// The files of a segment hold at most one contents.
pub fn files_hold_one_contents()
    ensures { HoldsOneContents }
{}

/// Files in a directory spell the contents that they hold.
pub fn held_files_spell()
    ensures { HeldFilesSpell }
{}

//! What blocks don't change.
ghost use Rattle.seg_store.specs.BlockLaw.{AllAreStackedLast, AreTakenLast};

/// A document that a writer takes comes last, after all that it took before, whatever the size of blocks.
pub fn documents_stay_in_order()
    ensures { AreTakenLast }
{}

/// Blocks that a writer stacks come last as they are, after all that it took before.
pub fn stacked_blocks_stay_in_order()
    ensures { AllAreStackedLast }
{}

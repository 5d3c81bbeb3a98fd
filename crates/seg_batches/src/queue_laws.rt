//! Laws of the definitions.
ghost use Rattle.seg_batches.specs.QueueLaws.{SkippingFindsTheFirst};

/// Where `skip_to` stops, the list ends or the stamp is at least the target, and each operation that it passed has a
/// smaller stamp.
pub fn skipping_finds_the_first<T>()
    ensures { SkippingFindsTheFirst T }
{}

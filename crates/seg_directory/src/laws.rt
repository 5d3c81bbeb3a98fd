//! Laws of the definitions.
ghost use Rattle.seg_directory.specs.ImageLaws.{ChangesLeaveTheirName, StableFilesAreAnImage, UntouchedNamesStay};

/// What is safe on a disk is an image of it; in each image a name without a pending change is as it is safe, so with
/// nothing pending there is one image; and a change may show at its own name alone.
pub fn images_of_a_disk<Name: Ord>()
    ensures stable { StableFilesAreAnImage Name.cmp }
    ensures untouched { UntouchedNamesStay Name.cmp }
    ensures changed { ChangesLeaveTheirName Name.cmp }
{}

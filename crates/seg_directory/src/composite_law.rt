//! What a composite file is spelled as.
ghost use Rattle.std.specs.Prelude.{◌≡◌, ◌↔◌, List, Some};
ghost use Rattle.seg_directory.specs.CompositeFiles.{Part, composite};
ghost use Rattle.seg_directory.specs.CompositeBytes.{IsSpelled};

/// Bytes read as parts exactly where they spell them: the parts one after the other, then for each its field and where
/// it ends, then their number.
pub fn composite_files_are_spelled(bytes: &[u8])
    ensures { (parts : List Part) → composite bytes.now ≡ Some parts ↔ IsSpelled bytes.now parts }
{}

//! Where texts of a joined path begin.
ghost use Rattle.std.specs.Prelude.{◌≡◌, ◌==◌, if◌then◌else◌};

/// Where the next text of a joined path begins, in the newest document that has a text there. Before any text it is 0.
#[derive(Clone, Copy)]
pub(crate) struct PathStart {
    pub document: u32,
    pub start: u32,
}

impl PathStart {
    /// Before any text.
    pub const NONE: PathStart = PathStart {
        document: 0,
        start: 0,
    };

    /// Where the next text begins in a document.
    pub fn in_document(self, document: u32) -> u32
        ensures { result ≡ (if self.document == document then self.start else 0) }
    {
        if self.document == document {
            self.start
        } else {
            0
        }
    }
}

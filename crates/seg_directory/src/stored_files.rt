//! Files in memory.
ghost use Rattle.std.specs.Prelude.{◌≡◌, OnOk, OnErr, is_some};
ghost use Rattle.std.specs.Option.{option_copied};
ghost use Rattle.std.specs.FinMap.{empty, get, insert, len};

use seg_common::{FileName, OwnedBytes};
use std::alloc::{AllocError, Global};
use std::collections::BTreeMap;
use std::marker::Model;

/// The bytes of files, by their names.
#[derive(Drop)]
pub(crate) struct StoredFiles {
    by_name: BTreeMap<FileName, OwnedBytes>,
}

impl Model for StoredFiles {
    ghost use Rattle.std.specs.FinMap.{from_entries};
    ghost use Rattle.std.specs.Coded.{codes};
    ghost use Rattle.seg_directory.specs.Files.{NamedFiles, files_code};

    ghost Value = { NamedFiles };

    ghost coded = { Prim.hlevel (codes, files_code) };

    ghost view = { λ s. from_entries s.by_name.entries };
}

impl StoredFiles {
    pub(crate) fn none(alloc: Global) -> StoredFiles
        ensures { result ≡ empty }
    {
        StoredFiles {
            by_name: BTreeMap::new(alloc),
        }
    }

    pub(crate) fn len(&self) -> u64
        ensures { result ≡ len self.now }
    {
        self.by_name.len() as u64
    }

    pub(crate) fn contains(&self, name: &FileName) -> bool
        ensures { result ≡ is_some (get self.now name.now) }
    {
        self.by_name.contains_key(name)
    }

    /// The bytes of a file.
    pub(crate) fn get(&self, name: &FileName) -> Option<&OwnedBytes>
        ensures { option_copied result ≡ get self.now name.now }
    {
        self.by_name.get(name)
    }

    /// Gives a file these bytes, whether it is there or not.
    pub(crate) fn put(&mut self, name: FileName, bytes: OwnedBytes) -> Result<(), AllocError>
        ensures set { OnOk result (self.new ≡ insert self.old name bytes) }
        ensures same { OnErr result (self.new ≡ self.old) }
    {
        self.by_name.insert(name, bytes)?;
        Ok(())
    }
}

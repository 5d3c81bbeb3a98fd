//! An index.
ghost use Rattle.std.specs.Prelude.{◌≡◌, map, IfOk, IfErr, IsTrue, OnOk};
ghost use Rattle.std.specs.FinMap.{insert};
ghost use Rattle.seg_common.specs.declared.name.FileName.TheVariants.{Meta};
ghost use Rattle.seg_directory.specs.Disk.{exactly, with_change};
ghost use Rattle.seg_directory.specs.DiskChanges.{KeepsDisk};
ghost use Rattle.seg_directory.specs.DiskRuns.{SavesOnDisk};
ghost use Rattle.seg_directory.specs.FileDisks.{settled};
ghost use Rattle.seg_directory.specs.DirectorySteps.{Works};
ghost use Rattle.seg_meta.specs.MetaSteps.{LoadsMetas, create_steps};
ghost use Rattle.seg_meta.specs.MetaText.{meta_text};
ghost use Rattle.seg_meta.specs.SavableMetas.{IsMetaList, empty_meta};
ghost use Rattle.seg_meta.specs.Metas.{segment_of};
ghost use Rattle.seg_meta.specs.MetaMeaning.{settings_of, meta_of};

use crate::{IndexMeta, IndexSettings, Segment, SegmentMetas, load_metas, save_metas};
use seg_common::FileName;
use seg_directory::{Directory, expect_no_files};
use seg_values::{Schema, TResult, TantivyError};
use std::alloc::Global;
use std::marker::Model;

/// An index, by the meta that was written, read or handed in.
#[derive(Debug, Drop)]
pub struct Index {
    metas: IndexMeta,
}

impl Model for Index {
    ghost use Rattle.seg_meta.specs.declared.index_meta.IndexMeta.{IndexMeta};
    ghost use Rattle.seg_meta.specs.SavableMetas.{IsMetaList};

    ghost Value = { IndexMeta };

    ghost view = { λ a. a.metas };

    ghost invariant = { λ a. IsMetaList a.metas.segments };
}

impl Index {
    /// Begins an index in a directory without files: saves a meta without segments there. A crash leaves what
    /// `save_metas` says.
    pub fn create<O: Directory>(
        alloc: Global,
        schema: Schema,
        settings: IndexSettings,
        directory: &mut O,
    ) -> TResult<Index>
        ensures ok { IfOk result (λ index. meta_of index ≡ empty_meta (settings_of settings) schema) }
        ensures does { Works (create_steps (meta_text (empty_meta (settings_of settings) schema)))
            result (O.state directory.old) (O.state directory.new) }
        ensures disk { IsTrue (O.state directory.old).disk.told
            → SavesOnDisk
            (insert (O.state directory.old).files Meta (meta_text (empty_meta (settings_of settings) schema)))
            (O.state directory.old).disk (O.state directory.new).disk }
        ensures safe { IsTrue (O.state directory.old).disk.told → OnOk result ((O.state directory.new).disk.now
            ≡ with_change (settled (O.state directory.old).files) Meta
            (exactly (meta_text (empty_meta (settings_of settings) schema)))) }
    {
        if let Err(e) = expect_no_files(alloc, directory) {
            return Err(e);
        }
        let metas = IndexMeta {
            index_settings: settings,
            segments: SegmentMetas::new(alloc),
            schema,
            opstamp: 0,
            payload: None,
        };
        match save_metas(alloc, &metas, directory) {
            Ok(()) => Ok(Index { metas }),
            Err(e) => Err(e),
        }
    }

    /// Opens the index that a directory has.
    pub fn open<W: Directory>(alloc: Global, directory: &mut W) -> TResult<Index>
        ensures does { LoadsMetas result (W.state directory.old) (W.state directory.new) }
        ensures disk { IsTrue (W.state directory.old).disk.told
            → KeepsDisk (W.state directory.old).disk (W.state directory.new).disk }
    {
        match load_metas(alloc, directory) {
            Ok(metas) => Ok(Index { metas }),
            Err(e) => Err(e),
        }
    }

    pub fn from_metas(metas: IndexMeta) -> Index
        requires { IsMetaList metas.segments }
        ensures { result ≡ metas }
    {
        Index { metas }
    }

    pub fn schema(&self) -> &Schema
        ensures { result.now ≡ self.now.schema }
    {
        &self.metas.schema
    }

    pub fn settings(&self) -> &IndexSettings
        ensures { result.now ≡ self.now.index_settings }
    {
        &self.metas.index_settings
    }

    /// The meta that was written, read or handed in.
    pub fn metas(&self) -> &IndexMeta
        ensures { result.now ≡ self.now }
    {
        &self.metas
    }

    /// The segments that the meta lists, in order. They share the schema.
    pub fn searchable_segments(&self, alloc: Global) -> TResult<Vec<Segment>>
        ensures ok { IfOk result (λ segments. segments.items ≡ map (segment_of self.now.schema) self.now.segments) }
        ensures err { IfErr result (λ e. e ≡ TantivyError.OutOfMemory) }
    {
        let mut segments = Vec::new(alloc);
        for meta in self.metas.segments.as_slice() {
            let segment = Segment::new(self.metas.schema.share(), *meta);
            if segments.push(segment).is_err() {
                return Err(TantivyError::OutOfMemory);
            }
        }
        Ok(segments)
    }
}

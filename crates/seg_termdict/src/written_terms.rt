//! The terms of a dictionary that is being built.
ghost use Rattle.std.specs.Prelude.{◌≡◌, ◌<◌, ◌^◌, ◌++◌, [], None, length, take, IsSome, IfOk, OnOk, OnErr, MatchBool};
ghost use Rattle.std.specs.Int.{w64, to_le_bytes};
ghost use Rattle.seg_termdict.specs.Dictionary.{IsDictionary, terms_of};
ghost use Rattle.seg_termdict.specs.DictionaryBuilders.{Building, complete, with_key, with_info, MayFollow, Continues};
ghost use Rattle.seg_termdict.specs.BuilderTables.{AreWritten, HasWidths, info_bytes, written};

use crate::format::{COUNT, LIST_TYPE, VERSION};
use seg_common::{TermInfo, put_u32, put_u64};
use std::alloc::{AllocError, Global};
use std::cmp::Ordering;
use std::marker::Model;

/// The parts of a dictionary that grow: where each key ends, the bytes of the keys, and the infos after their first
/// starts. The last key is the end of the bytes.
#[derive(Drop)]
pub(crate) struct WrittenTerms {
    alloc: Global,
    ends: Vec<u8>,
    keys: Vec<u8>,
    infos: Vec<u8>,
    key_count: u64,
    info_count: u64,
    last_start: usize,
}

impl Model for WrittenTerms {
    ghost use Rattle.seg_termdict.specs.DictionaryBuilders.{Building};
    ghost use Rattle.seg_termdict.specs.BuilderTables.{AreWritten, written};

    ghost Value = { Building };

    ghost view = { λ t. written t.ends.items t.keys.items t.infos.items t.key_count t.info_count };

    ghost invariant = { λ t. AreWritten t.ends.items t.keys.items t.infos.items t.key_count t.info_count t.last_start };
}

impl WrittenTerms {
    pub(crate) fn new(alloc: Global) -> Result<WrittenTerms, AllocError>
        ensures { IfOk result (λ terms. terms ≡ complete []) }
    {
        let mut infos = Vec::new(alloc);
        put_u64(&mut infos, 0)?;
        put_u64(&mut infos, 0)?;
        Ok(WrittenTerms {
            alloc,
            ends: Vec::new(alloc),
            keys: Vec::new(alloc),
            infos,
            key_count: 0,
            info_count: 0,
            last_start: 0,
        })
    }

    /// Whether a key is greater than the last.
    pub(crate) fn may_follow(&self, key: &[u8]) -> bool
        requires { self.now.waiting ≡ None }
        ensures { MatchBool result (MayFollow self.now.terms key.now) (MayFollow self.now.terms key.now → ⊥) }
    {
        if self.key_count == 0 {
            return true;
        }
        let (_, last) = self.keys.split_at(self.last_start);
        match last.cmp(&key) {
            Ordering::Less => true,
            Ordering::Equal => false,
            Ordering::Greater => false,
        }
    }

    pub(crate) fn push_key(&mut self, key: &[u8]) -> Result<(), AllocError>
        requires alternate { self.old.waiting ≡ None }
        requires follows { MayFollow self.old.terms key.now }
        ensures { OnOk result (self.new ≡ with_key key.now self.old) }
    {
        let start = self.keys.len();
        put_key(&mut self.ends, &mut self.keys, key)?;
        self.last_start = start;
        self.key_count += 1;
        Ok(())
    }

    pub(crate) fn push_info(&mut self, info: &TermInfo) -> Result<(), AllocError>
        requires alternate { IsSome self.old.waiting }
        requires ranges { Continues self.old.terms info.now }
        ensures { OnOk result (self.new ≡ with_info info.now self.old) }
    {
        put_info(&mut self.infos, info)?;
        self.info_count += 1;
        Ok(())
    }

    /// The bytes of the dictionary.
    pub(crate) fn finish(self) -> Result<Vec<u8>, AllocError>
        requires { self.waiting ≡ None }
        ensures dictionary { IfOk result (λ bytes. IsDictionary bytes.items) }
        ensures terms { IfOk result (λ bytes. terms_of bytes.items ≡ self.terms) }
    {
        let mut bytes = Vec::new(self.alloc);
        put_u64(&mut bytes, self.key_count)?;
        bytes.extend_from_slice(&self.ends)?;
        bytes.extend_from_slice(&self.keys)?;
        put_u64(&mut bytes, self.info_count)?;
        bytes.extend_from_slice(&self.infos)?;
        put_u64(&mut bytes, (COUNT + self.infos.len()) as u64)?;
        put_u32(&mut bytes, VERSION)?;
        put_u32(&mut bytes, LIST_TYPE)?;
        Ok(bytes)
    }
}

/// Adds the bytes of a key, and where it ends.
fn put_key(ends: &mut Vec<u8>, keys: &mut Vec<u8>, key: &[u8]) -> Result<(), AllocError>
    ensures keys { OnOk result (keys.new.items ≡ keys.old.items ++ key.now) }
    ensures small { OnOk result (length keys.new.items < 2 ^ 64) }
    ensures ends { OnOk result (ends.new.items ≡ ends.old.items ++ to_le_bytes w64 (length keys.new.items)) }
    ensures err { OnErr result ((keys.new.items ≡ keys.old.items) × (ends.new.items ≡ ends.old.items)) }
{
    let start = keys.len();
    keys.extend_from_slice(key)?;
    let end = keys.len() as u64;
    if put_u64(ends, end).is_err() {
        keys.truncate(start);
        return Err(AllocError);
    }
    Ok(())
}

/// Adds the bytes of an info.
fn put_info(infos: &mut Vec<u8>, info: &TermInfo) -> Result<(), AllocError>
    ensures ok { OnOk result (infos.new.items ≡ infos.old.items ++ info_bytes info.now) }
    ensures widths { OnOk result (HasWidths info.now) }
    ensures err { OnErr result (infos.new.items ≡ infos.old.items) }
{
    let before = infos.len();
    match put_fields(infos, info) {
        Ok(()) => Ok(()),
        Err(error) => {
            infos.truncate(before);
            Err(error)
        }
    }
}

/// Adds the bytes of an info, or some first of them.
fn put_fields(infos: &mut Vec<u8>, info: &TermInfo) -> Result<(), AllocError>
    ensures ok { OnOk result (infos.new.items ≡ infos.old.items ++ info_bytes info.now) }
    ensures widths { OnOk result (HasWidths info.now) }
    ensures begins { take (length infos.old.items) infos.new.items ≡ infos.old.items }
{
    put_u32(infos, info.doc_freq)?;
    put_u64(infos, info.postings_end)?;
    put_u64(infos, info.positions_end)
}

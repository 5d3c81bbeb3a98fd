//! The builder of term dictionaries.
ghost use Rattle.std.specs.Prelude.{◌≡◌, [], Option, Some, None, IfOk, IfErr, IfSome, IsSome, OnOk};
ghost use Rattle.seg_common.specs.WriterGrowth.{HasGrown};
ghost use Rattle.seg_termdict.specs.Dictionary.{IsDictionary, terms_of};
ghost use Rattle.seg_termdict.specs.DictionaryBuilders.{Building, complete, with_key, with_info, with_term, MayFollow, Continues, KeyRefused};

use crate::error::TermDictError;
use crate::written_terms::WrittenTerms;
use seg_common::TermInfo;
use std::alloc::Global;
use std::marker::Model;

/// Writes a term dictionary term by term, first the key and then its info. Once out of memory it answers so for
/// good, and it is seen as nothing.
#[derive(Drop)]
pub struct TermDictionaryBuilder {
    terms: Option<WrittenTerms>,
}

impl Model for TermDictionaryBuilder {
    ghost use Rattle.std.specs.Prelude.{Option};
    ghost use Rattle.seg_termdict.specs.DictionaryBuilders.{Building};

    ghost Value = { Option Building };

    ghost view = { λ b. b.terms };
}

impl TermDictionaryBuilder {
    /// A builder without a term.
    pub fn create(alloc: Global) -> Result<TermDictionaryBuilder, TermDictError>
        ensures ok { IfOk result (λ builder. builder ≡ Some (complete [])) }
        ensures err { IfErr result (λ e. e ≡ TermDictError.OutOfMemory) }
    {
        Ok(TermDictionaryBuilder {
            terms: Some(WrittenTerms::new(alloc)?),
        })
    }

    /// Adds a key, whose info comes next. `OutOfOrder`: the key isn't greater than the last; the builder goes on as if
    /// it had not been given.
    pub fn insert_key(&mut self, key: &[u8]) -> Result<(), TermDictError>
        requires alternate { IfSome self.old (λ b. b.waiting ≡ None) }
        ensures ok { OnOk result (HasGrown self.old self.new (with_key key.now)) }
        ensures order { OnOk result (IfSome self.old (λ b. MayFollow b.terms key.now)) }
        ensures err { IfErr result (KeyRefused self.old self.new key.now) }
    {
        let Some(terms) = &mut self.terms else {
            return Err(TermDictError::OutOfMemory);
        };
        if !terms.may_follow(key) {
            return Err(TermDictError::OutOfOrder);
        }
        if terms.push_key(key).is_ok() {
            return Ok(());
        }
        self.terms = None;
        Err(TermDictError::OutOfMemory)
    }

    /// Adds the info of the key that waits.
    pub fn insert_value(&mut self, value: &TermInfo) -> Result<(), TermDictError>
        requires alternate { IfSome self.old (λ b. IsSome b.waiting) }
        requires ranges { IfSome self.old (λ b. Continues b.terms value.now) }
        ensures ok { OnOk result (HasGrown self.old self.new (with_info value.now)) }
        ensures err { IfErr result (λ e. (e ≡ TermDictError.OutOfMemory) × (self.new ≡ None)) }
    {
        let Some(terms) = &mut self.terms else {
            return Err(TermDictError::OutOfMemory);
        };
        if terms.push_info(value).is_ok() {
            return Ok(());
        }
        self.terms = None;
        Err(TermDictError::OutOfMemory)
    }

    /// Adds a key and its info. `OutOfOrder` as `insert_key`.
    pub fn insert(&mut self, key: &[u8], value: &TermInfo) -> Result<(), TermDictError>
        requires alternate { IfSome self.old (λ b. b.waiting ≡ None) }
        requires ranges { IfSome self.old (λ b. Continues b.terms value.now) }
        ensures ok { OnOk result (HasGrown self.old self.new (with_term key.now value.now)) }
        ensures order { OnOk result (IfSome self.old (λ b. MayFollow b.terms key.now)) }
        ensures err { IfErr result (KeyRefused self.old self.new key.now) }
    {
        self.insert_key(key)?;
        self.insert_value(value)
    }

    /// The bytes of the dictionary.
    pub fn finish(self) -> Result<Vec<u8>, TermDictError>
        requires complete { IfSome self (λ b. b.waiting ≡ None) }
        ensures ok { IfOk result (λ bytes. self ≡ Some (complete (terms_of bytes.items))) }
        ensures dictionary { IfOk result (λ bytes. IsDictionary bytes.items) }
        ensures err { IfErr result (λ e. e ≡ TermDictError.OutOfMemory) }
    {
        match self.terms {
            Some(terms) => Ok(terms.finish()?),
            None => Err(TermDictError::OutOfMemory),
        }
    }
}

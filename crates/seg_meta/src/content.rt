//! The content of the file of a meta.
ghost use Rattle.std.specs.Prelude.{◌≡◌, IfOk};
ghost use Rattle.seg_meta.specs.MetaText as text;
ghost use Rattle.seg_meta.specs.MetaMeaning.{meta_of};

use crate::IndexMeta;
use crate::meta_json::meta_json;
use std::alloc::{AllocError, Global};

/// The content of the file of a meta.
pub fn meta_text(alloc: Global, metas: &IndexMeta) -> Result<Vec<u8>, AllocError>
    ensures { IfOk result (λ bytes. bytes.items ≡ text.meta_text (meta_of metas.now)) }
{
    let json = meta_json(alloc, metas)?;
    let mut bytes = json.to_vec_pretty(alloc)?;
    bytes.push(b'\n')?;
    Ok(bytes)
}

//! Texts read as bytes.
ghost use Rattle.std.specs.Prelude.{◌≡◌, ℕ, List, Some, ◌↔◌, IfOk};
ghost use Rattle.base64.specs.Engines.{standard};
ghost use Rattle.base64.specs.GeneralPurpose.{encode_of, IsBytes};
ghost use Rattle.seg_script_values.specs.ByteTexts.{bytes_of};

use base64::DecodeAllocError;
use base64::engine::general_purpose::STANDARD;
use seg_tokens::Bytes;
use std::alloc::{AllocError, Global};

/// The bytes of which a text is the standard base64 with padding (RFC 4648, section 4); none where it is that of no
/// bytes.
pub fn bytes_from(alloc: Global, text: &str) -> Result<Option<Bytes>, AllocError>
    ensures value { IfOk result (λ bytes. bytes ≡ bytes_of text.now) }
    ensures strict { (bytes : List ℕ) → IsBytes bytes
        → (bytes_of text.now ≡ Some bytes) ↔ (text.now ≡ encode_of standard bytes) }
{
    match STANDARD.decode(alloc, text.as_bytes()) {
        Ok(bytes) => Ok(Some(Bytes::from_vec(bytes))),
        Err(DecodeAllocError::OutOfMemory) => Err(AllocError),
        Err(DecodeAllocError::DecodeError(_)) => Ok(None),
    }
}

//! The number that a word names.
ghost use Rattle.std.specs.Prelude.{◌≡◌, if◌then◌else◌, Some, None, decimal};
ghost use Rattle.std.specs.Str.{bytes_eq};
ghost use Rattle.seg_generate.specs.Seeds.{seed_named};

use itoa::Buffer;

/// The number of which a word is the decimal text, without leading zeros.
pub fn seed_named(word: &str) -> Option<u32>
    ensures { result ≡ seed_named word.now }
{
    match word.parse::<u32>() {
        Ok(seed) => if_written_so(word, seed),
        Err(_) => None,
    }
}

/// A number, where a word is its decimal text.
fn if_written_so(word: &str, seed: u32) -> Option<u32>
    ensures { result ≡ (if bytes_eq word.now (decimal seed) then Some seed else None) }
{
    let mut buffer = Buffer::new();
    if_same(word, buffer.format(seed), seed)
}

fn if_same(word: &str, text: &str, seed: u32) -> Option<u32>
    ensures { result ≡ (if bytes_eq word.now text.now then Some seed else None) }
{
    if word != text {
        return None;
    }
    Some(seed)
}

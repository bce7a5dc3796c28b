//! Bytes as words.
ghost use Rattle.std.specs.Prelude.{◌≡◌};
ghost use Rattle.std.specs.List.{fold};
ghost use Rattle.text_key.specs.Words.{longer};

// A word with one byte more at its low end.
#[inline(always)]
fn longer(word: u64, byte: u8) -> u64
    ensures { result ≡ longer word byte }
{
    word.wrapping_mul(256).wrapping_add(byte as u64)
}

// A word with these bytes at its low end.
#[inline(always)]
pub(crate) fn behind(word: u64, bytes: &[u8]) -> u64
    ensures { result ≡ fold longer word bytes.now }
{
    let mut all = word;
    for byte in bytes {
        all = longer(all, *byte);
    }
    all
}

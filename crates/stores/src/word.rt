// The four bytes of a 32-bit word, the lowest first.
ghost use Rattle.std.specs.Prelude.{◌≡◌, ℕ, ◌<◌, ◌≢◌};
ghost use Rattle.stores.specs.Cells.{byte_of};

// Byte k of a word.
pub(crate) fn byte_of(word: u32, k: usize) -> u8
    requires { k < 4 }
    ensures { result ≡ byte_of word k }
{
    word.to_le_bytes()[k]
}

// A word with another byte k.
pub(crate) fn with_byte(word: u32, k: usize, byte: u8) -> u32
    requires { k < 4 }
    ensures here { byte_of result k ≡ byte }
    ensures there { (j : ℕ) → j < 4 → j ≢ k → byte_of result j ≡ byte_of word j }
{
    // By shifts: through an array of its bytes, a write takes three times as long.
    let shift = 8 * k as u32;
    (word & !(0xff << shift)) | (u32::from(byte) << shift)
}

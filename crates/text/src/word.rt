// A 64-bit word out of eight bytes, the most significant first.
ghost use Rattle.std.specs.Prelude.{◌≡◌};
ghost use Rattle.text.specs.Words.{word_at};

// The word that the eight bytes from `at` on make; none where there are fewer.
pub fn word_at(s: &[u8], at: usize) -> Option<u64>
    ensures { result ≡ word_at s.now at }
{
    let eight = s.get(at..)?.first_chunk::<8>()?;
    Some(u64::from_be_bytes(*eight))
}

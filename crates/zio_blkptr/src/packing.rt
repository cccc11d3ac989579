// The words of a pointer's bytes and the bits of a word.

ghost use Rattle.std.specs.Prelude.{◌≡◌, ◌+◌, ◌*◌, ◌<◌, ◌++◌, take, drop};
ghost use Rattle.std.specs.List.{flat_map};
ghost use Rattle.zio_blkptr.specs.Faults.{bits};
ghost use Rattle.zio_blkptr.specs.Pointers.{word as word_bytes, word_of};

/// Word `i`, whose lowest byte comes first.
pub fn word_of(bytes: &[u8; 128], i: usize) -> u64
    requires { i < 16 }
    ensures { result ≡ word_of bytes.now i }
{
    let (words, _) = bytes.as_chunks::<8>();
    u64::from_le_bytes(words[i])
}

/// The bytes of words, the lowest of each first.
pub fn bytes_of(words: &[u64; 16]) -> [u8; 128]
    ensures { result ≡ flat_map word_bytes words.now }
{
    let mut bytes = [0; 128];
    for i in 0..16 {
        put_word(&mut bytes, i, words[i]);
    }
    bytes
}

fn put_word(bytes: &mut [u8; 128], i: usize, word: u64)
    requires { i < 16 }
    ensures { bytes.new ≡ take (8 * i) bytes.old ++ word_bytes word ++ drop (8 * i + 8) bytes.old }
{
    bytes[8 * i..8 * i + 8].copy_from_slice(&word.to_le_bytes());
}

/// So many bits of a word, from bit `first` on.
#[inline]
pub fn bits(word: u64, first: u32, count: u32) -> u64
    requires first { first < 64 }
    requires count { count < 64 }
    ensures { result ≡ bits word first count }
{
    (word >> first) % (1 << count)
}

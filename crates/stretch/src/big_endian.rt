// Words read from bytes, the most significant first.
ghost use Rattle.std.specs.Prelude.{◌≡◌, ◌+◌, ◌≤◌, length};
ghost use Rattle.stretch.specs.BigEndian.{big_endian};

pub fn read_word(b: &[u8], i: usize) -> u64
    requires { i + 8 ≤ length b.now }
    ensures { result ≡ big_endian 8 b.now i }
{
    u64::from_be_bytes(*b[i..].first_chunk::<8>().unwrap())
}

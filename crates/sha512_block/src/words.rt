// FIPS 180-4, sections 3.2 and 4.1.3: addition of words and the six functions.
ghost use Rattle.std.specs.Prelude.{◌≡◌};
ghost use Rattle.sha512_block.specs.Words.{◌⊞◌, Ch, Maj, Σ₀, Σ₁, σ₀, σ₁};

pub fn add(x: u64, y: u64) -> u64
    ensures { result ≡ x ⊞ y }
{
    x.wrapping_add(y)
}

pub fn choose(x: u64, y: u64, z: u64) -> u64
    ensures { result ≡ Ch x y z }
{
    (x & y) ^ (!x & z)
}

pub fn majority(x: u64, y: u64, z: u64) -> u64
    ensures { result ≡ Maj x y z }
{
    (x & y) ^ (x & z) ^ (y & z)
}

// The four sigmas are functions of their own, as the standard has them: one over its constants would be called by three
// numbers in the place of a name.
pub fn big_sigma_0(x: u64) -> u64
    ensures { result ≡ Σ₀ x }
{
    x.rotate_right(28) ^ x.rotate_right(34) ^ x.rotate_right(39)
}

pub fn big_sigma_1(x: u64) -> u64
    ensures { result ≡ Σ₁ x }
{
    x.rotate_right(14) ^ x.rotate_right(18) ^ x.rotate_right(41)
}

pub fn small_sigma_0(x: u64) -> u64
    ensures { result ≡ σ₀ x }
{
    x.rotate_right(1) ^ x.rotate_right(8) ^ (x >> 7)
}

pub fn small_sigma_1(x: u64) -> u64
    ensures { result ≡ σ₁ x }
{
    x.rotate_right(19) ^ x.rotate_right(61) ^ (x >> 6)
}

// Numbers of 32 bits, the least significant byte first.
ghost use Rattle.std.specs.Prelude.{◌≡◌, ◌+◌, ◌^◌, ◌<◌, ◌≤◌, length};
ghost use Rattle.image.specs.Numbers.{number, put};

// The number at a place.
pub fn read_number(image: &[u8], at: usize) -> usize
    requires { at + 4 ≤ length image.now }
    ensures { (result ≡ number image.now at) × (result < 2 ^ 32) }
{
    let mut bytes = [0; 4];
    bytes.copy_from_slice(&image[at..at + 4]);
    u32::from_le_bytes(bytes) as usize
}

// Puts a number at a place.
pub fn put_number(image: &mut [u8], at: usize, value: usize)
    requires { at + 4 ≤ length image.old }
    ensures { image.new ≡ put image.old at value }
{
    image[at..at + 4].copy_from_slice(&value.to_le_bytes()[..4]);
}

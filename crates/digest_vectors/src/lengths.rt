// SHA-512 of a message of each length to 300, whole and in two parts: so with every padding.
ghost use Rattle.std.specs.Prelude.{◌≤◌, length};

use printer::Hex;
use std::io;

const LONGEST: usize = 300;

fn digest_of_two(first: &[u8], second: &[u8]) -> [u8; 64] {
    sha512::finish(sha512::feed(sha512::feed(sha512::begin(), first), second))
}

// Bytes that change with the offset and with the length.
fn fill(message: &mut [u8])
    requires { length message.old ≤ 300 }
{
    let length = message.len();
    for (i, byte) in message.iter_mut().enumerate() {
        *byte = ((i * 7 + length) % 256) as u8;
    }
}

fn line(rt: &impl Print, message: &[u8]) -> io::Result<()>
    requires { length message.now ≤ 300 }
{
    let length = message.len();
    let (first, second) = message.split_at(length * 5 / 7);
    let digest = sha512::of_message(message);
    let same = if digest == digest_of_two(first, second) {
        "same"
    } else {
        "differs"
    };
    let digest = Hex(&digest);
    println!(rt; "sha512 {length} {digest} {same}")
}

pub fn lines(rt: &impl Print) -> io::Result<()> {
    for length in 0..=LONGEST {
        let mut space = [0u8; LONGEST];
        let message = &mut space[..length];
        fill(message);
        line(rt, message)?;
    }
    Ok(())
}

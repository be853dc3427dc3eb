// SHA-512 of the messages that FIPS 180-4 and its examples publish.
use printer::Hex;
use sha512::Running;
use std::io;

// Six parts below, at and above the length of a block, 5,480 bytes in all.
fn feed_uneven(state: Running, same: &[u8; 4095]) -> Running {
    let parts = [
        &same[..1],
        &same[..127],
        &same[..128],
        &same[..129],
        &same[..1000],
        &same[..],
    ];
    parts
        .into_iter()
        .fold(state, |fed, part| sha512::feed(fed, part))
}

// A million times `a`: 182 rounds of uneven parts, and the 2,640 bytes that are left.
fn million() -> [u8; 64] {
    let same = [b'a'; 4095];
    let rounds = (0..182).fold(sha512::begin(), |state, _| feed_uneven(state, &same));
    sha512::finish(sha512::feed(rounds, &same[..2640]))
}

fn line(rt: &impl Print, name: &str, digest: &[u8; 64]) -> io::Result<()> {
    let digest = Hex(digest);
    println!(rt; "sha512 {name} {digest}")
}

pub fn lines(rt: &impl Print) -> io::Result<()> {
    line(rt, "empty", &sha512::of_message(b""))?;
    line(rt, "abc", &sha512::of_message(b"abc"))?;
    line(
        rt,
        "896-bit",
        &sha512::of_message(
            b"abcdefghbcdefghicdefghijdefghijkefghijklfghijklmghijklmnhijklmnoijklmnopjklmnopqklmnopqrlmnopqrsmnopqrstnopqrstu",
        ),
    )?;
    line(rt, "million-a", &million())
}

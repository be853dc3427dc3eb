// Base64url of three bytes.
use printer::{Hex, Shown};
use std::io;

const GROUPS: &[[u8; 3]] = &[
    [0x14, 0xfb, 0x9c],
    [0x03, 0xd9, 0x7e],
    [0x66, 0x6f, 0x6f],
    [0x62, 0x61, 0x72],
    [0xfb, 0xef, 0xbe],
    [0xff, 0xff, 0xff],
    [0x00, 0x00, 0x00],
    [0x00, 0x10, 0xff],
];

fn line(rt: &impl Print, group: [u8; 3]) -> io::Result<()> {
    let [a, b, c] = group;
    let text = digest_text::group_of(a, b, c);
    let bytes = Hex(&group);
    let text = Shown(&text);
    println!(rt; "base64url {bytes} {text}")
}

pub fn lines(rt: &impl Print) -> io::Result<()> {
    for group in GROUPS {
        line(rt, *group)?;
    }
    Ok(())
}

// Bytes in hexadecimal, with small letters; - stands for no bytes at all.
use anyhow::ensure;
use std::alloc::Global;

pub(crate) fn decode(heap: Global, text: &str) -> anyhow::Result<Vec<u8>> {
    let digits = if text == "-" { "" } else { text };
    // part by part, so that the digits of a part are looked at in a few steps
    let good = digits.as_bytes().chunks(64).all(|part| {
        part.iter().fold(true, |good, b| {
            good & matches!(b, b'0'..=b'9' | b'a'..=b'f')
        })
    });
    ensure!(good, "no hexadecimal digit");
    ensure!(digits.len() % 2 == 0, "half a byte");
    Ok(hex::decode(heap, digits)?)
}

// The kind of one field: `token HEX word`, `token HEX dash` or `token HEX number N`.
use super::bytes;
use super::cases::compare;
use anyhow::Context;
use fields::field::Field;
use std::alloc::{AllocError, Global};

fn kind(heap: Global, bytes: &[u8]) -> Result<String, AllocError> {
    match Field::of(bytes) {
        Field::Word(_) => String::from_str(heap, "word"),
        Field::Number(n) => format!(in heap; "number {n}"),
        Field::Dash => String::from_str(heap, "dash"),
    }
}

pub(crate) fn run(rt: &HostRuntime, record: &str) -> anyhow::Result<bool> {
    let (hex, expected) = record.split_once(' ').context("a token without its kind")?;
    let bytes = bytes::decode(rt.alloc(), hex)?;
    let came = kind(rt.alloc(), bytes.as_slice())?;
    compare(rt, hex, Some(expected), came.as_str())
}

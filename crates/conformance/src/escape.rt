//! Texts that are written with escapes: `\n`, `\t`, `\r`, `\\`, and `\xHH` for any other byte.
ghost use Rattle.std.specs.Prelude.{◌≡◌, ◌<◌, ◌++◌, IfOk, OnOk};
ghost use Rattle.std.specs.Option.{option_to_list};
ghost use Rattle.conformance.specs.declared.escape.Escape.TheVariants.{Plain};
ghost use Rattle.conformance.specs.Escapes.{value_of_hex, value_of_escape, escape_after, escape_gives, unescaped};

use std::alloc::{AllocError, Global};

/// How much of an escape was read.
#[derive(Clone, Copy)]
pub enum Escape {
    /// Nothing.
    Plain,
    /// The backslash.
    Begun,
    /// The x.
    First,
    /// The first hexadecimal digit, with its value.
    Second(u8),
}

/// The value of a hexadecimal digit, in small letters; 0 for any other byte.
fn hex_value(b: u8) -> u8
    ensures is { result ≡ value_of_hex b }
    ensures few { result < 16 }
{
    match b {
        b'0'..=b'9' => b - b'0',
        b'a'..=b'f' => b - b'a' + 10,
        _ => 0,
    }
}

/// The byte that is meant by one letter behind a backslash.
fn short_escape(b: u8) -> u8
    ensures { result ≡ value_of_escape b }
{
    match b {
        b'n' => b'\n',
        b't' => b'\t',
        b'r' => b'\r',
        _ => b,
    }
}

impl Escape {
    /// How much of an escape was read behind one more byte, and the byte that this completes, if any.
    fn step(self, b: u8) -> (Escape, Option<u8>)
        ensures after { result.0 ≡ escape_after self b }
        ensures gives { option_to_list result.1 ≡ escape_gives self b }
    {
        match self {
            Escape::Plain => {
                if b == b'\\' {
                    return (Escape::Begun, None);
                }
                (Escape::Plain, Some(b))
            }
            Escape::Begun => {
                if b == b'x' {
                    return (Escape::First, None);
                }
                (Escape::Plain, Some(short_escape(b)))
            }
            Escape::First => (Escape::Second(hex_value(b)), None),
            Escape::Second(first) => (Escape::Plain, Some(16 * (first % 16) + hex_value(b))),
        }
    }
}

/// Adds a byte, if there is one.
fn push_if(bytes: &mut Vec<u8>, byte: Option<u8>) -> Result<(), AllocError>
    ensures { OnOk result (bytes.new.items ≡ bytes.old.items ++ option_to_list byte) }
{
    if let Some(byte) = byte {
        bytes.push(byte)?;
    }
    Ok(())
}

/// The bytes that are written with escapes.
pub(crate) fn unescape(heap: Global, written: &[u8]) -> Result<Vec<u8>, AllocError>
    ensures { IfOk result (λ v. v.items ≡ unescaped Plain written.now) }
{
    let mut bytes = Vec::new(heap);
    let mut escape = Escape::Plain;
    for b in written {
        let (next, byte) = escape.step(*b);
        push_if(&mut bytes, byte)?;
        escape = next;
    }
    Ok(bytes)
}

//! Calls that write and read a record of the journal.

use cfg_base::Bytes;
use record_code::{MAX_PAYLOAD, Payloads, Placed, digest_of, encode, kind_of, length_of};
use script_lines::{Arg, Fault, Text, number, say, say_bytes, say_number};
use std::alloc::Global;

fn kind(arg: &Arg) -> Result<u8, Fault> {
    u8::try_from(number(arg)?).map_err(|_| Fault::Script("a kind is a number below 256"))
}

/// encode KIND BYTES
fn ask_encoded(alloc: Global, args: &[Arg], out: &mut Text) -> Result<(), Fault> {
    let [number, bytes] = args else {
        return Err(Fault::Script("encode KIND BYTES"));
    };
    let payload = Bytes::from(Vec::from_slice(alloc, bytes)?);
    if payload.as_slice().len() > MAX_PAYLOAD {
        return Err(Fault::Script("a payload has at most 1049600 bytes"));
    }
    let encoded = encode(alloc, kind(number)?, &payload)?;
    say_number(out, encoded.as_bytes().len() as u64);
    say_bytes(out, "bytes", encoded.as_bytes());
    Ok(())
}

/// digest_of BYTES
fn ask_digest(args: &[Arg], out: &mut Text) -> Result<(), Fault> {
    let [bytes] = args else {
        return Err(Fault::Script("digest_of BYTES"));
    };
    out.put("= ");
    for byte in digest_of(bytes) {
        out.put_hex(byte);
    }
    out.put("\n");
    Ok(())
}

fn say_field(out: &mut Text, field: Option<u64>) {
    match field {
        Some(number) => say_number(out, number),
        None => say(out, "none"),
    }
}

/// kind_of BYTES
fn ask_kind(args: &[Arg], out: &mut Text) -> Result<(), Fault> {
    match args {
        [bytes] => say_field(out, kind_of(bytes).map(u64::from)),
        _ => return Err(Fault::Script("kind_of BYTES")),
    }
    Ok(())
}

/// length_of BYTES
fn ask_length(args: &[Arg], out: &mut Text) -> Result<(), Fault> {
    match args {
        [bytes] => say_field(out, length_of(bytes).map(u64::from)),
        _ => return Err(Fault::Script("length_of BYTES")),
    }
    Ok(())
}

/// Records at these offsets.
fn payloads_at(alloc: Global, offsets: &[Arg]) -> Result<Payloads, Fault> {
    let mut payloads = Payloads::new(alloc);
    for arg in offsets {
        payloads.push(Placed {
            offset: number(arg)?,
            kind: 1,
            payload: Bytes::empty(alloc),
        })?;
    }
    Ok(payloads)
}

/// payloads OFFSET ..
fn ask_payloads(alloc: Global, args: &[Arg], out: &mut Text) -> Result<(), Fault> {
    let payloads = payloads_at(alloc, args)?;
    say_number(out, payloads.as_slice().len() as u64);
    for placed in payloads.as_slice() {
        say_number(out, placed.offset);
    }
    Ok(())
}

/// Answers one of these calls, where it is one.
pub(crate) fn ask(
    alloc: Global,
    call: &str,
    args: &[Arg],
    out: &mut Text,
) -> Option<Result<(), Fault>> {
    Some(match call {
        "encode" => ask_encoded(alloc, args, out),
        "digest_of" => ask_digest(args, out),
        "kind_of" => ask_kind(args, out),
        "length_of" => ask_length(args, out),
        "payloads" => ask_payloads(alloc, args, out),
        _ => return None,
    })
}

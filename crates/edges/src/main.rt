//! Tries the edges of the packet layer, and prints what comes of each.
#![tactic(auto)]

use std::alloc::{AllocError, Global};
use std::io;
use wire::body::{Direction, Fields};
use wire::crc::crc8;
use wire::frame::{pack, unpack};
use wire::receiver::Receiver;
use worked::examples;

/// The longest frame has 89 bytes.
const FRAME: usize = 89;

fn main(rt: HostRuntime) -> io::Result<()> {
    let count = examples();
    println!(rt; "{count} worked examples hold")?;
    for count in [31, 32] {
        try_data(&rt, count)?;
    }
    for length in [11, 12, 43, 44] {
        try_body(&rt, length)?;
    }
    Ok(())
}

/// Packs so many data bytes, all of which stuffing doubles.
fn try_data(rt: &HostRuntime, count: usize) -> io::Result<()> {
    let data = vec![in rt.alloc(); 0x55; count]?;
    let fields = Fields {
        direction: Direction::Answer,
        destination: 0xFFFF,
        source: 5,
        command: 0x07,
        four: [0; 4],
        payload: &data,
    };
    let mut frame = [0; FRAME];
    match pack(&fields, &mut frame) {
        Ok(length) => println!(rt; "{count} data bytes: a frame of {length} bytes"),
        Err(refusal) => {
            let number = u8::from(refusal);
            println!(rt; "{count} data bytes: refused {number}")
        }
    }
}

/// A body of so many bytes, good but for its length.
fn body(heap: Global, length: usize) -> Result<Vec<u8>, AllocError> {
    let data = length.saturating_sub(12).min(31);
    let mut body = vec![in heap; data as u8]?;
    body.resize(length.saturating_sub(1), 0)?;
    let crc = crc8(&body);
    body.push(crc)?;
    Ok(body)
}

/// The frame around a body, stuffed byte by byte.
fn framed(heap: Global, body: &[u8]) -> Result<Vec<u8>, AllocError> {
    let mut frame = vec![in heap; 0x73, 0x55]?;
    for byte in body {
        match *byte {
            0x55 => frame.extend_from_slice(&[0x73, 0x11])?,
            0x73 => frame.extend_from_slice(&[0x73, 0x22])?,
            plain => frame.push(plain)?,
        }
    }
    frame.push(0x55)?;
    Ok(frame)
}

/// Hands a body of so many bytes to unpack and to a receiver.
fn try_body(rt: &HostRuntime, length: usize) -> io::Result<()> {
    let body = body(rt.alloc(), length)?;
    let frame = framed(rt.alloc(), &body)?;
    let mut buffer = [0; 43];
    match unpack(&frame, &mut buffer) {
        Ok(count) => println!(rt; "a body of {length} bytes: unpacked to {count}")?,
        Err(refusal) => {
            let number = u8::from(refusal);
            println!(rt; "a body of {length} bytes: unpack refused {number}")?;
        }
    }
    let mut receiver = Receiver::new();
    match receiver.run(&frame) {
        (taken, None) => println!(rt; "a body of {length} bytes: nothing received from {taken}"),
        (taken, Some(Ok(()))) => println!(rt;
            "a body of {length} bytes: received with byte {taken}"
        ),
        (taken, Some(Err(fault))) => {
            let number = u8::from(fault);
            println!(rt; "a body of {length} bytes: fault {number} at byte {taken}")
        }
    }
}

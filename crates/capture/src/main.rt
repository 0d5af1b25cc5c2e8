//! Plays a recorded capture through a cable and through a tape, and prints what is heard on each.
#![tactic(auto)]

use bearer::cable::Cable;
use bearer::tape::Tape;
use bearer::{Bearer, listen};
use heard::PING;
use std::io;
use text::write_bytes;
use wire::receiver::Receiver;

/// Noise, with a mark in it; an answer with a wrong CRC; the question of a ping; more noise; the answer to the ping; a frame that is not whole.
const CAPTURE: [u8; 55] = [
    0x00, 0x73, 0x12, 0x55, 0xFF, 0x73, 0x55, 0x00, 0x00, 0xFF, 0xFF, 0x05, 0x00, 0x3A, 0x60, 0x00,
    0x00, 0x00, 0xEE, 0x55, 0x73, 0x55, 0x20, 0x00, 0x05, 0x00, 0xFF, 0xFF, 0x01, 0x00, 0x00, 0x00,
    0x00, 0xCA, 0x55, 0x55, 0x73, 0x73, 0x55, 0x04, 0x00, 0xFF, 0xFF, 0x05, 0x00, 0x01, 0x60, 0x00,
    0x00, 0x00, 0x07, 0x01, 0x05, 0x00, 0x43,
];

/// What ends the capture: the last frame's flag, and the beginning of another frame.
const ENDING: [u8; 5] = [0x55, 0x73, 0x55, 0x20, 0x00];

fn main(rt: HostRuntime) -> io::Result<()> {
    let mut cable = Cable::new();
    if cable.feed(&CAPTURE).is_err() || cable.feed(&ENDING).is_err() {
        return println!(rt; "cable: the capture exceeds the places");
    }
    play(&rt, "cable", &mut cable)?;
    echo(&rt, &mut cable)?;
    let mut whole = CAPTURE.to_vec(rt.alloc())?;
    whole.extend_from_slice(&ENDING)?;
    let mut out = [0; 20];
    let mut tape = Tape::new(whole.as_slice(), &mut out);
    play(&rt, "tape", &mut tape)?;
    let free = tape.room();
    println!(rt; "tape: room for {free}")?;
    if tape.send(&PING).is_err() {
        return println!(rt; "tape: no room for the ping");
    }
    let free = tape.room();
    println!(rt; "tape: room for {free} behind the ping")
}

/// Prints what is heard until no byte waits.
fn play<B: Bearer>(rt: &HostRuntime, name: &str, bearer: &mut B) -> io::Result<()> {
    let mut receiver = Receiver::new();
    while let Some(event) = listen(bearer, &mut receiver) {
        match event {
            Err(fault) => {
                let number = u8::from(fault);
                println!(rt; "{name}: fault {number}")?;
            }
            Ok(()) => {
                let mut body = String::new(rt.alloc());
                write_bytes(&mut body, receiver.body())?;
                println!(rt; "{name}: a good frame, {body}")?;
            }
        }
    }
    println!(rt; "{name}: no byte waits")
}

/// Sends the ping on the cable, and fetches it on the far side.
fn echo(rt: &HostRuntime, cable: &mut Cable) -> io::Result<()> {
    if cable.send(&PING).is_err() {
        return println!(rt; "cable: no room for the ping");
    }
    let free = cable.room();
    println!(rt; "cable: room for {free} behind the ping")?;
    let mut fetched = 0u32;
    while cable.fetch().is_some() {
        fetched += 1;
    }
    let free = cable.room();
    println!(rt; "cable: {fetched} bytes fetched, room for {free}")
}

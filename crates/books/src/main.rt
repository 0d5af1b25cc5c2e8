//! Writes books, damages them and reads them, and prints what comes of each.
#![tactic(auto)]

use book::{ReadRefusal, WriteRefusal, read_book, write_book};
use forms::kinds::{Meter, Reading, Standing};
use numbering::{Energy, Parameter, TextField};
use ordered::{Keyed, Table};
use protocol::counters::Counters;
use protocol::record::Record;
use std::alloc::{AllocError, Global};
use std::io;
use text::{write_bytes, write_refusal};
use worked::saved_examples;

/// The most meters of a book.
const METERS: usize = 128;
/// The most readings of a book.
const READINGS: usize = 1024;
/// Places for the readings of each trial.
const PLACES: usize = 8;
/// Bytes for each book that is written.
const ROOM: usize = 128;

/// What a meter's place holds before it is taken.
const NO_METER: Meter = Meter {
    address: 0,
    standing: None,
};

/// What a reading's place holds before it is taken.
const NO_READING: Reading = Reading {
    address: 0,
    record: Record::Ping {
        version: 0,
        info: 0,
    },
};

/// Meters 5 and 300 as a book.
const TWO: [u8; 8] = [0x02, 0x05, 0x00, 0x00, 0xA7, 0x02, 0x00, 0x00];

/// Meter 5 with a standing and its temperature as a book.
const ONE: [u8; 9] = [0x01, 0x05, 0x01, 0x60, 0x00, 0x00, 0x01, 0x1B, 0x15];

fn main(rt: HostRuntime) -> io::Result<()> {
    let count = saved_examples();
    println!(rt; "{count} worked examples of numbers and books hold")?;
    write_worked(&rt)?;
    let book = full_book(&rt)?;
    read_cut(&rt, &book)?;
    read_numbers(&rt)?;
    read_values(&rt)?;
    read_counts(&rt)?;
    read_places(&rt, &book)?;
    fill_meters(&rt)?;
    fill_readings(&rt)?;
    try_read(&rt, "no meter", &[0x00])?;
    try_read(&rt, "two meters", &TWO)?;
    try_read(&rt, "one record", &ONE)?;
    read_into(&rt, "four records", &book, 2, 4)
}

/// Meter 5, with a standing.
fn standing_meter() -> Meter {
    Meter {
        address: 5,
        standing: Some(Standing {
            first: 0x60,
            second: 0,
            third: 0,
        }),
    }
}

/// A meter without a standing.
fn new_meter(address: u16) -> Meter {
    Meter {
        address,
        standing: None,
    }
}

/// Meter 5's temperature.
fn temperature() -> Record {
    Record::Parameter {
        parameter: Parameter::Temperature,
        value: 21,
    }
}

/// Meter 5's street.
fn street() -> Record {
    let mut text = [0; 30];
    text[0..4].copy_from_slice(b"Mill");
    Record::Text {
        field: TextField::Street,
        text,
    }
}

/// A counter of meter 5.
fn counter() -> Record {
    Record::Counter {
        energy: Energy::ActiveForward,
        counters: Counters {
            config: 0x26,
            voltage_ratio: 1,
            current_ratio: 300,
            full: 123_456,
            in_use: u32::MAX,
            tariffs: [100_000, 23_456, 0, 0],
        },
    }
}

/// A reading of meter 5.
fn of_five(record: Record) -> Reading {
    Reading { address: 5, record }
}

/// Puts meters and readings into two files, and writes their book into a buffer of so many bytes.
fn written(
    heap: Global,
    meters: &[Meter],
    readings: &[Reading],
    room: usize,
) -> Result<Result<Vec<u8>, WriteRefusal>, AllocError> {
    let mut meter_places = [NO_METER; METERS];
    let mut reading_places = [NO_READING; PLACES];
    let mut meter_file = Table::new(&mut meter_places, METERS);
    let mut reading_file = Table::new(&mut reading_places, PLACES);
    put_all(&mut meter_file, meters);
    put_all(&mut reading_file, readings);
    save(heap, &meter_file, &reading_file, room)
}

/// Puts records as long as there are places.
fn put_all<R: Keyed>(file: &mut Table<'_, R>, records: &[R]) {
    for record in records {
        if file.put(*record).is_err() {
            return;
        }
    }
}

/// The book of two files, or its refusal.
fn save(
    heap: Global,
    meters: &Table<'_, Meter>,
    readings: &Table<'_, Reading>,
    room: usize,
) -> Result<Result<Vec<u8>, WriteRefusal>, AllocError> {
    let mut buffer = vec![in heap; 0; room]?;
    match write_book(meters, readings, &mut buffer) {
        Ok(length) => {
            buffer.truncate(length);
            Ok(Ok(buffer))
        }
        Err(refusal) => Ok(Err(refusal)),
    }
}

/// Prints the book that was written, or the refusal.
fn print_book(
    rt: &HostRuntime,
    title: &str,
    book: &Result<Vec<u8>, WriteRefusal>,
) -> io::Result<()> {
    let mut outcome = String::new(rt.alloc());
    match book {
        Ok(bytes) => write_bytes(&mut outcome, bytes)?,
        Err(refusal) => write_refusal(&mut outcome, u8::from(*refusal))?,
    }
    println!(rt; "write {title}: {outcome}")
}

/// Writes a book and prints it.
fn try_write(
    rt: &HostRuntime,
    title: &str,
    meters: &[Meter],
    readings: &[Reading],
    room: usize,
) -> io::Result<()> {
    let book = written(rt.alloc(), meters, readings, room)?;
    print_book(rt, title, &book)
}

/// Writes small books, and one into buffers that just take it and just do not.
fn write_worked(rt: &HostRuntime) -> io::Result<()> {
    let one = [standing_meter()];
    let warm = [of_five(temperature())];
    try_write(rt, "no meter", &[], &[], ROOM)?;
    try_write(rt, "no meter into no byte", &[], &[], 0)?;
    try_write(rt, "two meters", &[new_meter(300), new_meter(5)], &[], ROOM)?;
    try_write(rt, "one record into 9 bytes", &one, &warm, 9)?;
    try_write(rt, "one record into 8 bytes", &one, &warm, 8)
}

/// Writes a book with a record of each kind, put in another order than theirs, and answers it.
fn full_book(rt: &HostRuntime) -> io::Result<Vec<u8>> {
    let meters = [new_meter(300), standing_meter()];
    let ping = Record::Ping {
        version: 4,
        info: 1,
    };
    let readings = [temperature(), street(), counter(), ping].map(of_five);
    let book = written(rt.alloc(), &meters, &readings, ROOM)?;
    print_book(rt, "four records", &book)?;
    Ok(book.unwrap_or(Vec::new(rt.alloc())))
}

/// Reads a book into empty files with places enough, and prints what comes of it.
fn try_read(rt: &HostRuntime, title: &str, book: &[u8]) -> io::Result<()> {
    read_into(rt, title, book, METERS, PLACES)
}

/// What two files hold of a book that was granted.
#[derive(Clone, Copy)]
struct Granted {
    meters: usize,
    readings: usize,
    /// Whether their book is the same again.
    same: bool,
}

/// Reads a book into empty files with so many places; one that is granted is written again.
fn read(
    heap: Global,
    book: &[u8],
    meter_limit: usize,
    reading_limit: usize,
) -> Result<Result<Granted, ReadRefusal>, AllocError> {
    let mut meter_places = [NO_METER; METERS];
    let mut reading_places = [NO_READING; PLACES];
    let mut meters = Table::new(&mut meter_places, meter_limit);
    let mut readings = Table::new(&mut reading_places, reading_limit);
    if let Err(refusal) = read_book(&mut meters, &mut readings, book) {
        return Ok(Err(refusal));
    }
    let same = save(heap, &meters, &readings, ROOM)?.is_ok_and(|bytes| bytes.as_slice() == book);
    Ok(Ok(Granted {
        meters: meters.len(),
        readings: readings.len(),
        same,
    }))
}

/// Reads a book into empty files with so many places, and prints what comes of it.
fn read_into(
    rt: &HostRuntime,
    title: &str,
    book: &[u8],
    meter_limit: usize,
    reading_limit: usize,
) -> io::Result<()> {
    match read(rt.alloc(), book, meter_limit, reading_limit)? {
        Err(refusal) => {
            let mut words = String::new(rt.alloc());
            write_refusal(&mut words, u8::from(refusal))?;
            println!(rt; "read {title}: {words}")
        }
        Ok(
            Granted {
                meters,
                readings,
                same,
            },
        ) => {
            let again = if same {
                "the same bytes"
            } else {
                "other bytes"
            };
            println!(rt;
                "read {title}: granted, {meters} meters, {readings} readings; written again, {again}"
            )
        }
    }
}

/// Reads a book without its last byte, and then cut at every length.
fn read_cut(rt: &HostRuntime, book: &[u8]) -> io::Result<()> {
    if let [front @ .., _] = book {
        try_read(rt, "all but the last byte", front)?;
    }
    let mut early = 0u32;
    for length in 0..book.len() {
        let outcome = read(rt.alloc(), &book[..length], METERS, PLACES)?;
        // By its number, which the line below prints.
        if outcome.is_err_and(|refusal| u8::from(refusal) == 51) {
            early = early.saturating_add(1);
        }
    }
    let length = book.len();
    println!(rt; "read fewer than {length} bytes: {early} times refused 51")
}

/// Reads counts that are not spelt in the shortest way.
fn read_numbers(rt: &HostRuntime) -> io::Result<()> {
    try_read(rt, "a long spelling", &[0x80, 0x00])?;
    try_read(
        rt,
        "a number beyond 32 bits",
        &[0xFF, 0xFF, 0xFF, 0xFF, 0x10],
    )
}

/// Reads addresses, slots and values that break a rule.
fn read_values(rt: &HostRuntime) -> io::Result<()> {
    try_read(rt, "meter 0", &[0x01, 0x00, 0x00, 0x00])?;
    try_read(
        rt,
        "a meter twice",
        &[0x02, 0x05, 0x00, 0x00, 0x00, 0x00, 0x00],
    )?;
    try_read(
        rt,
        "slot 0",
        &[0x01, 0x05, 0x01, 0x60, 0x00, 0x00, 0x01, 0x00, 0x15],
    )?;
    try_read(rt, "meter 65534", &[0x01, 0xFE, 0xFF, 0x03, 0x00, 0x00])?;
    try_read(rt, "meter 65535", &[0x01, 0xFF, 0xFF, 0x03, 0x00, 0x00])?;
    try_read(rt, "a standing's flag of 2", &[0x01, 0x05, 0x02, 0x00])?;
    try_read(
        rt,
        "a status of 256",
        &[0x01, 0x05, 0x01, 0x80, 0x02, 0x00, 0x00, 0x00],
    )?;
    try_read(
        rt,
        "slot 29",
        &[0x01, 0x05, 0x01, 0x60, 0x00, 0x00, 0x01, 0x1D, 0x15],
    )
}

/// Reads counts that break a rule.
fn read_counts(rt: &HostRuntime) -> io::Result<()> {
    try_read(rt, "128 meters, of which none follows", &[0x80, 0x01])?;
    try_read(rt, "129 meters", &[0x81, 0x01])?;
    try_read(
        rt,
        "1024 records, of which none follows",
        &[0x01, 0x05, 0x01, 0x60, 0x00, 0x00, 0x80, 0x08],
    )?;
    try_read(
        rt,
        "1025 records",
        &[0x01, 0x05, 0x01, 0x60, 0x00, 0x00, 0x81, 0x08],
    )?;
    try_read(
        rt,
        "a record without a standing",
        &[0x01, 0x05, 0x00, 0x01, 0x1B, 0x15],
    )
}

/// Reads a book of two meters and four records with a byte behind it, and into files with few places.
fn read_places(rt: &HostRuntime, book: &[u8]) -> io::Result<()> {
    let mut behind = book.to_vec(rt.alloc())?;
    behind.push(0)?;
    read_into(rt, "no meter into no place", &[0x00], 0, 0)?;
    read_into(rt, "a byte behind the book", &behind, 2, 4)?;
    read_into(rt, "into 1 meter place", book, 1, 4)?;
    read_into(rt, "into 3 reading places", book, 2, 3)?;
    read_into(
        rt,
        "a byte behind the book into 1 meter place",
        &behind,
        1,
        4,
    )?;
    read_into(
        rt,
        "a byte behind the book into 3 reading places",
        &behind,
        2,
        3,
    )
}

/// Puts meters until there is no place.
fn fill_meters(rt: &HostRuntime) -> io::Result<()> {
    let mut places = [NO_METER; METERS + 1];
    let mut file = Table::new(&mut places, METERS);
    for address in 1..1000 {
        if file.put(new_meter(address)).is_err() {
            return println!(rt; "put meter {address}: no place");
        }
    }
    println!(rt; "put meters: a place for each")
}

/// Appends readings until there is no place.
fn fill_readings(rt: &HostRuntime) -> io::Result<()> {
    let mut places = [NO_READING; READINGS + 1];
    let mut file = Table::new(&mut places, READINGS);
    for address in 1..2000 {
        let reading = Reading {
            address,
            record: temperature(),
        };
        if file.append(reading).is_err() {
            return println!(rt; "append reading {address}: no place");
        }
    }
    println!(rt; "append readings: a place for each")
}

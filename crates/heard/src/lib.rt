//! Closed examples: a frame that is fed to a cable or captured on a tape is heard, and what a tape leaves with the caller.
#![tactic(auto)]

ghost use Rattle.std.specs.Prelude.{◌≡◌};
ghost use Rattle.heard.specs.Examples.{Hears, Left, ping};

use bearer::cable::Cable;
use bearer::tape::Tape;
use bearer::{Bearer, NoRoom, listen};
use wire::receiver::{Event, Receiver};

/// The question of a ping to the meter at address 5.
pub const PING: [u8; 15] = [
    0x73, 0x55, 0x20, 0x00, 0x05, 0x00, 0xFF, 0xFF, 0x01, 0x00, 0x00, 0x00, 0x00, 0xCA, 0x55,
];

/// What a new receiver makes of a line on which the ping waits.
fn hear<B: Bearer>(line: &mut B) -> Option<Event>
    requires { (B.Bearer.state line.old).waiting ≡ ping }
    ensures { Hears result }
{
    let mut receiver = Receiver::new();
    listen(line, &mut receiver)
}

/// Feeds the ping to a new cable and listens.
pub fn over_cable() -> Option<Event>
    ensures { Hears result }
{
    let mut cable = Cable::new();
    cable.feed(&PING).ok()?;
    hear(&mut cable)
}

/// Reads the ping from a new tape and listens.
pub fn over_tape() -> Option<Event>
    ensures { Hears result }
{
    let mut out = [0; 4];
    let mut tape = Tape::new(&PING, &mut out);
    hear(&mut tape)
}

/// Sends on a new tape over the caller's buffer, which the caller then has back.
pub fn left_by_tape(out: &mut [u8], bytes: &[u8]) -> Result<(), NoRoom>
    ensures { Left bytes.now out.old result out.new }
{
    let mut tape = Tape::new(&[], out);
    tape.send(bytes)
}

//! The workshop's console: a script on standard input, one line of answer for each command on standard output.
#![tactic(auto)]

use answers::answer_line;
use std::io;
use std::io::{BufRead, BufReader};

fn main(rt: HostRuntime) -> io::Result<()> {
    let heap = rt.alloc();
    let mut input = BufReader::new(heap, rt.stdin())?;
    // Nothing says that an input ends, so the turns are counted.
    for _ in 0..u64::MAX {
        let mut line = Vec::new(heap);
        if input.read_until(b'\n', &mut line)? == 0 {
            break;
        }
        let text = match line.as_slice() {
            [text @ .., b'\n'] => text,
            text => text,
        };
        let mut answer = String::new(heap);
        answer_line(heap, &mut answer, text)?;
        rt.print(answer)?;
    }
    Ok(())
}

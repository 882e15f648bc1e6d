// Replays logs: prints the text of each log on standard input, where every log stands behind its length in two bytes.
#![tactic(auto)]

use rod_log::print;
use std::io::{Read, Result};

// As many logs as a replay takes.
const MOST_LOGS: usize = 1000;

// Prints the text of the next log; false where the input has come to its end.
fn replay_next<R: Read>(rt: &impl Print, input: &mut R) -> Result<bool> {
    let mut space = io::large_buffer();
    let mut head = [0u8; 2];
    let got = print::read_full(input, &mut head)?;
    if got < 2 {
        return Ok(false);
    }
    let length = usize::from(u16::from_be_bytes(head));
    let count = print::read_full(input, &mut space[0..length])?;
    print::print_text(rt, &space[0..count])?;
    Ok(true)
}

fn main(rt: HostRuntime) -> Result<()> {
    let mut input = rt.reader();
    for _ in 0..MOST_LOGS {
        if !replay_next(&rt, &mut input)? {
            return Ok(());
        }
    }
    Ok(())
}

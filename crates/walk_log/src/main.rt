// Walks the log on standard input: prints a line for each accepted pair.
#![tactic(auto)]

use std::io;

fn main(rt: HostRuntime) -> io::Result<()> {
    rod_log::print::walk_input(&rt)
}

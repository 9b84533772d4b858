// Reads a table followed by its image from standard input, and lists them on standard output.
#![tactic(auto)]

use std::io;

fn main(rt: HostRuntime) -> io::Result<()> {
    shell::list_between(&mut rt.stdin(), &mut rt.stdout())
}

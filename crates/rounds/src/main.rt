// Reads a table from the standard input, and prints what came of it.
#![tactic(auto)]

use report::rehearse;
use std::io;
use std::io::Read;

fn main(rt: HostRuntime) -> io::Result<()> {
    let mut bytes = Vec::new(rt.alloc());
    rt.stdin().read_to_end(&mut bytes)?;
    let report = rehearse(&bytes);
    println!(rt; "{report}")
}

// The builder: a table to its archive.
#![tactic(auto)]

use std::io;

fn main(rt: HostRuntime) -> io::Result<()> {
    program_pipes::run_builder(&mut rt.stdin(), &mut io::writer(&rt))
}

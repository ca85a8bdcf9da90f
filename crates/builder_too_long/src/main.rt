// The builder on an input that it finds too long.
#![tactic(auto)]

use std::io;

fn main(rt: HostRuntime) -> io::Result<()> {
    program_pipes::run_builder(&mut rt.stdin(), &mut io::writer(&rt))
}

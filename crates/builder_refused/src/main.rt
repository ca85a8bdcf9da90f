// The builder on an input that it refuses.
#![tactic(auto)]

use std::io;

fn main(rt: HostRuntime) -> io::Result<()> {
    program_pipes::run_builder(&mut rt.stdin(), &mut io::writer(&rt))
}

// The lister: an archive to its text.
#![tactic(auto)]

use std::io;

fn main(rt: HostRuntime) -> io::Result<()> {
    program_pipes::run_lister(&mut rt.stdin(), &mut io::writer(&rt))
}

// The program, run on the worked input of document 01.
#![tactic(auto)]

use std::io;

fn main(rt: HostRuntime) -> io::Result<()> {
    hop_main::run(&rt)
}

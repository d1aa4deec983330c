// The dictionary program on example A with a pattern byte above 2.
#![tactic(auto)]

use std::io;

fn main(rt: HostRuntime) -> io::Result<()> {
    program::run(&rt)
}

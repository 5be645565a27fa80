// Prints the table that stands on standard input, or why it is refused.
#![tactic(auto)]

use inspection::report::inspect;
use std::io;
use std::io::Read;

fn main(rt: HostRuntime) -> io::Result<()> {
    let mut bytes = Vec::new(rt.alloc());
    let _ = rt.stdin().read_to_end(&mut bytes)?;
    print!(rt; "{}", inspect(bytes.as_slice()))
}

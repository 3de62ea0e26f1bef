// Reads a plan on standard input and lists its binders, or tells why it is refused.
#![tactic(auto)]

use listing::print::print_listing;
use std::io;
use std::io::Read;

fn main(rt: HostRuntime) -> io::Result<()> {
    let heap = rt.alloc();
    let mut bytes = Vec::new(heap);
    rt.stdin().read_to_end(&mut bytes)?;
    print_listing(&rt, heap, bytes.as_slice())
}

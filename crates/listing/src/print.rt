// The listing of a plan on standard output.
use crate::table::make::listed;
use refusal::Refusal;
use std::alloc::Global;
use std::io;

// Prints the listing of a plan, or the line of its refusal.
pub fn print_listing(rt: &impl Print, heap: Global, bytes: &[u8]) -> io::Result<()> {
    match listed(heap, bytes)? {
        Ok(listing) => rt.print(listing),
        Err(fault) => rt.println(Refusal::from(fault)),
    }
}

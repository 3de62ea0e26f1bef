// Reads plans in base sixteen, one to a line, and prints the listing or the refusal of each, then a line with a point.
#![tactic(auto)]

ghost use Rattle.std.specs.Prelude.{◌<◌};

use listing::print::print_listing;
use std::io;
use std::io::Read;

// `to_digit(16)` reads capitals too, which stand for no digit here.
fn digit(b: u8) -> u8
    ensures { result < 16 }
{
    match b {
        b'0'..=b'9' => b - b'0',
        b'a'..=b'f' => b - b'a' + 10,
        _ => 0,
    }
}

fn main(rt: HostRuntime) -> io::Result<()> {
    let heap = rt.alloc();
    let mut input = Vec::new(heap);
    rt.stdin().read_to_end(&mut input)?;
    // One list for all cases: a case no longer than one before it takes no memory to be read.
    let mut bytes: Vec<u8> = Vec::new(heap);
    for line in input.split_inclusive(|b| *b == b'\n') {
        let Some(digits) = line.strip_suffix(b"\n") else {
            break;
        };
        let (pairs, _) = digits.as_chunks::<2>();
        bytes.clear();
        for [high, low] in pairs {
            bytes.push(digit(*high) * 16 + digit(*low))?;
        }
        print_listing(&rt, heap, &bytes)?;
        println!(rt; ".")?;
    }
    Ok(())
}

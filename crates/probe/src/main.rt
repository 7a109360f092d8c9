// The library over pipes: calls of the face on standard input, one after the other until the input ends, and a result for each on
// standard output. docs/PROBE.md has the protocol.
#![tactic(auto)]

mod calls;
mod inputs;
mod operations;
mod results;

use calls::serve_call;
use inputs::Stop;
use results::Output;
use std::io;

// A proved loop has to end, and nothing says that the input does. So the loop counts its turns, up to a number that no run reaches.
fn main(rt: HostRuntime) -> io::Result<()> {
    let mut input = rt.reader();
    let mut first = [0u16; 12000];
    let mut second = [0u16; 12000];
    let mut bytes = [0u8; 70000];
    let mut raw = [0u8; 24008];
    let mut out = Output::new();
    for _ in 0..u64::MAX {
        match serve_call(
            &rt,
            &mut input,
            &mut first,
            &mut second,
            &mut bytes,
            &mut raw,
            &mut out,
        ) {
            Ok(()) => {}
            Err(Stop::NoCall) => break,
            Err(Stop::Failed(e)) => return Err(e),
        }
    }
    Ok(())
}

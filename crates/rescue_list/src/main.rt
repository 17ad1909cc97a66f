// Document 02, L14: rescues the damaged trace of standard input, and writes a line an entry.
#![tactic(auto)]

use rescue_chunk::Output;

fn main(rt: HostRuntime) {
    rescuer::run(rt.stdin(), Output::Entries);
}

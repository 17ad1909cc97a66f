// Document 02, L1: turns the trace of standard input into a text list of accesses.
#![tactic(auto)]

use convert::Form;

fn main(rt: HostRuntime) {
    converter::run(rt.stdin(), Form::Trace);
}

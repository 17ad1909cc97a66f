// Document 02, L1: turns the text list of accesses of standard input into a trace.
#![tactic(auto)]

use convert::Form;

fn main(rt: HostRuntime) {
    converter::run(rt.stdin(), Form::Text);
}

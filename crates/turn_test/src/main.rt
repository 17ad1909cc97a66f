// Replays the trace of standard input, of two chunks at most, by turns that are looked into: behind a full chunk the replay goes on from a turn that is
// made here, of where it stands.
#![tactic(auto)]

use turn::Turn;

fn main(rt: HostRuntime) {
    let mut shared = zeroed::bytes::<16384>();
    let mut window = zeroed::bytes::<32768>();
    let mut input = zeroed::bytes::<65520>();
    let mut out = zeroed::bytes::<104832>();
    let first = turn::first(standing::start());
    let mut turn = turn::replay_chunk(
        rt.stdin(),
        first,
        &mut shared,
        &mut window,
        &mut input,
        &mut out,
    );
    if turn.goes_on() {
        let again = Turn::first(turn.work());
        turn = turn::replay_chunk(
            rt.stdin(),
            again,
            &mut shared,
            &mut window,
            &mut input,
            &mut out,
        );
    }
    let end = turn::last_line(turn, &mut out);
    io::write_all(1, stream::text(&out, end));
}

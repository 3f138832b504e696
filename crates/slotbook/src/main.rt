// Runs an event log from standard input, and writes its lines to standard output: `streams::run`. Its test is document 01's example.
#![tactic(auto)]

fn main(rt: HostRuntime) {
    streams::run(&rt);
}

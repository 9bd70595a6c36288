// The program of document 01: a line for each record.
#![tactic(auto)]

fn main(rt: HostRuntime) {
    feed::run(&rt, &rt.stderr(), false);
}

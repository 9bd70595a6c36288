// The same program with the bytes written behind each line.
#![tactic(auto)]

fn main(rt: HostRuntime) {
    feed::run(&rt, &rt.stderr(), true);
}

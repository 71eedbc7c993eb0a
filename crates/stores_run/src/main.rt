//! One list of calls on eight stores, their answers side by side: a list and a matrix, each alone, under a lock, under a screen, and
//! under both. Then screens that are taken off, bit 63, and the sizes that a store may have.

#![tactic(auto)]

mod call;
mod edges;
mod stores;

fn run(rt: &HostRuntime) -> anyhow::Result<()> {
    println!(rt;
        "L: under a lock on marker 3. S: under a screen on marker 3. LS: under a lock on marker 2 over such a screen."
    )?;
    println!(rt)?;
    stores::tell_calls(rt, 100, &stores::CALLS)?;
    stores::tell_calls(rt, 20_000_001, &stores::CALLS[..4])?;
    edges::tell_taken_off(rt)?;
    edges::tell_last_bit(rt)?;
    edges::tell_sizes(rt)
}

fn main(rt: HostRuntime) -> anyhow::Result<()> {
    run(&rt)
}

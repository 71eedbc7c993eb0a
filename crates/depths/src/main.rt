//! Reads a well's text from standard input, and writes its markers' depths, or a contradiction, or a refusal. An answer
//! without depths ends the process with status 1.

#![tactic(auto)]

use report::answer;
use std::io::{Read, Write};
use std::process::ExitCode;

/// One byte more than the longest text.
const LONGEST: u64 = 65_537;

fn run(rt: &HostRuntime) -> anyhow::Result<bool> {
    let mut text = Vec::new(rt.alloc());
    rt.stdin().take(LONGEST).read_to_end(&mut text)?;
    let report = answer(rt.alloc(), text.as_slice())?;
    let mut out = rt.stdout();
    out.write_all(report.bytes.as_slice())?;
    out.flush()?;
    Ok(report.solved)
}

fn main(rt: HostRuntime) -> anyhow::Result<ExitCode> {
    Ok(if run(&rt)? {
        ExitCode::SUCCESS
    } else {
        ExitCode::FAILURE
    })
}

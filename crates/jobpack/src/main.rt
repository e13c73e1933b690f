// Packs lines of text into the blocks of a job file.
#![tactic(auto)]

use blocks::{pack, split_lines};
use cli::{explained, input};
use std::process::ExitCode;

const HELP: &str = "jobpack [FILE]
Packs the lines of FILE, or of standard input, into the blocks of a job, and writes it to standard output.
A line has at most 503 bytes, and a job at most 65,536 blocks.";

fn run(rt: &HostRuntime) -> anyhow::Result<ExitCode> {
    let Some(text) = input(rt, HELP)? else {
        return Ok(ExitCode::SUCCESS);
    };
    let lines = split_lines(rt.alloc(), text.as_slice())?;
    let job = pack(rt.alloc(), lines.as_slice())?;
    rt.write_all(job.as_slice())?;
    Ok(ExitCode::SUCCESS)
}

fn main(rt: HostRuntime) -> ExitCode {
    explained(&rt, "jobpack", run(&rt)).unwrap_or(ExitCode::FAILURE)
}

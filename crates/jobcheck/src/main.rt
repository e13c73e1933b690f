// Lists a job file: each order and each refusal with its place, and a summary.
#![tactic(auto)]

use cli::{explained, input};
use jobs::list_job;
use std::process::ExitCode;

const HELP: &str = "jobcheck [FILE]
Lists the job in FILE, or on standard input: each order and each refusal with its block and line, then a summary.
Ends with status 1 where anything was refused.";

fn run(rt: &HostRuntime) -> anyhow::Result<ExitCode> {
    let Some(job) = input(rt, HELP)? else {
        return Ok(ExitCode::SUCCESS);
    };
    let listing = list_job(rt.alloc(), job.as_slice())?;
    rt.write_all(listing.text.as_slice())?;
    if listing.refused > 0 {
        return Ok(ExitCode::FAILURE);
    }
    Ok(ExitCode::SUCCESS)
}

fn main(rt: HostRuntime) -> ExitCode {
    explained(&rt, "jobcheck", run(&rt)).unwrap_or(ExitCode::FAILURE)
}

// What the programs share: where their input comes from, and what they say where something fails. No contract can say
// what a program reads or prints, so these functions are proved to be safe and to end, and what they do is tested by
// running the programs.
#![tactic(auto)]

ghost use Rattle.std.specs.Prelude.{◌≡◌};

use anyhow::{Context, ensure};
use std::io::Read;
use std::{env, fs};

// The input of a program that takes one file, or standard input where none is named. Where help is asked for, it is
// printed and there is no input.
pub fn input(rt: &HostRuntime, help: &str) -> anyhow::Result<Option<Vec<u8>>> {
    let mut args = env::args(rt)?.skip(1);
    let Some(first) = args.next() else {
        return Ok(Some(standard_input(rt)?));
    };
    ensure!(
        args.next().is_none(),
        "more than one file is named; --help says what is taken"
    );
    let name = first.as_str();
    if matches!(name, "--help" | "-h") {
        rt.println(help)?;
        return Ok(None);
    }
    let bytes = fs::read(rt, name).context(name)?;
    Ok(Some(bytes))
}

fn standard_input(rt: &HostRuntime) -> anyhow::Result<Vec<u8>> {
    let mut bytes = Vec::new(rt.alloc());
    rt.stdin().read_to_end(&mut bytes)?;
    Ok(bytes)
}

// Hands a program's result on, and says on standard error what went wrong.
pub fn explained<T>(
    rt: &HostRuntime,
    program: &str,
    outcome: anyhow::Result<T>,
) -> anyhow::Result<T>
    ensures { result ≡ outcome }
{
    outcome.inspect_err(|e| {
        let _ = eprintln!(rt; "{program}: {e:#}");
    })
}

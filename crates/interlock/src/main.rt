// The shell: it answers a script from standard input on standard output.
#![tactic(auto)]

use script::answer_script;
use std::io::{Read, Write};

fn main(rt: HostRuntime) -> anyhow::Result<()> {
    let mut script = Vec::new(rt.alloc());
    rt.stdin().take(65537).read_to_end(&mut script)?;
    let answers = answer_script(rt.alloc(), &script)?;
    rt.stdout().write_all(&answers)?;
    Ok(())
}

// Hands each line of standard input to one session as a command text, and prints what comes back; then tries pages and scripts of limit sizes.
#![tactic(auto)]

use script::answer_script;
use session::store::Session;
use std::alloc::{AllocError, Global};
use std::io::{Read, Write};

// Number, place and count of the reply, and then the response.
fn give(
    rt: &HostRuntime,
    session: &mut Session,
    text: &[u8],
    page: &mut [u8],
) -> anyhow::Result<()> {
    let reply = session.command(text, page);
    let number = reply.number();
    let place = reply.place();
    let count = reply.count;
    println!(rt; "{number} {place} {count}")?;
    rt.stdout().write_all(&page[0..count])?;
    Ok(())
}

// A script of one command and blanks behind it.
fn padded(heap: Global, size: usize) -> Result<Vec<u8>, AllocError> {
    let mut script = Vec::from_slice(heap, b"(foo)")?;
    script.resize(size, b' ')?;
    Ok(script)
}

fn answer_padded(rt: &HostRuntime, size: usize) -> anyhow::Result<()> {
    let script = padded(rt.alloc(), size)?;
    let answers = answer_script(rt.alloc(), &script)?;
    rt.stdout().write_all(&answers)?;
    Ok(())
}

fn limits(rt: &HostRuntime) -> anyhow::Result<()> {
    let mut session = Session::new();
    let mut small = [42u8; 8191];
    give(rt, &mut session, b"(exit)", &mut small)?;
    let first = small[0];
    println!(rt; "{first}")?;
    let mut large = [42u8; 8192];
    give(rt, &mut session, b"(exit)", &mut large)?;
    let behind = large[8];
    println!(rt; "{behind}")?;
    answer_padded(rt, 65536)?;
    answer_padded(rt, 65537)
}

fn main(rt: HostRuntime) -> anyhow::Result<()> {
    let mut input = Vec::new(rt.alloc());
    rt.stdin().read_to_end(&mut input)?;
    let mut session = Session::new();
    let mut page = [0u8; 8192];
    let mut lines = input.split(|&byte| byte == b'\n');
    // What stands behind the last line feed is no line.
    lines.next_back();
    for line in lines {
        give(&rt, &mut session, line, &mut page)?;
    }
    limits(&rt)
}

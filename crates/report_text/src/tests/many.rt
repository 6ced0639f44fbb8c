// Reports and summaries of several rounds, threads and walks, worked out by hand.
use super::three_blocks;
use crate::{Answers, report, summary};
use heap_model::{Block, Layer, Reply};
use script_text::{generate, read_script};
use std::alloc::Global;
use std::test::Fail;

/// The layout and the blocks of `three_blocks`.
const THREE_BLOCKS: &str =
    "segment 0\nvs 2 16\nback 18 33\nfree 51 205 committed 0\nblock 8256 16 vs\nblock 8336 57 vs\nblock 73728 131073 back\nblocks 3 bytes 131146\n";

fn block(addr: u64, size: u64, layer: Layer) -> Reply {
    Reply::Seen(Block { addr, size, layer })
}

/// A walk under the lock has a line for each block and one for its end, and one without it has one line.
#[test]
fn reports_walks(rt: HostRuntime) -> Result<(), Fail> {
    let alloc = rt.alloc();
    let script = read_script(alloc, b"alloc x 5\nlock\nwalk\nunlock\nwalk\n")
        .ok()
        .ok_or("script")?;
    let mut answers = Answers::new(alloc);
    answers.add_round()?;
    let seen = block(8256, 5, Layer::Vs);
    answers.add_thread(vec![in alloc;
        Reply::Address(8256),
        Reply::Done,
        seen,
        Reply::Walked(1),
        Reply::Done,
        Reply::NotLocked,
    ]?)?;
    let image = three_blocks(&rt, alloc)?;
    let text = report(alloc, &script, &answers, &image)?;
    let lines =
        "0 0 alloc 8256\n0 0 lock ok\n0 0 walk 8256 5 vs\n0 0 walk end 1\n0 0 unlock ok\n0 0 walk notlocked\n";
    let whole = format!(in alloc; "{lines}{THREE_BLOCKS}")?;
    assert!(rt; text.as_bytes() == whole.as_bytes());
    Ok(())
}

/// What the threads of three rounds were answered, of which the second one has no thread.
fn answered(alloc: Global) -> Result<Answers, Fail> {
    let mut answers = Answers::new(alloc);
    answers.add_round()?;
    let first = block(8192, 200_000, Layer::Back);
    let second = block(212_992, 300_000, Layer::Back);
    answers.add_thread(vec![in alloc;
        Reply::Address(8192),
        Reply::Done,
        first,
        second,
        Reply::Walked(2),
        Reply::Done,
    ]?)?;
    answers.add_thread(vec![in alloc; Reply::Address(212_992), Reply::NotLive]?)?;
    answers.add_thread(Vec::new(alloc))?;
    answers.add_round()?;
    answers.add_round()?;
    answers.add_thread(vec![in alloc; Reply::Number(300_000), Reply::NoFit, Reply::NoFit]?)?;
    answers.add_thread(vec![in alloc;
        Reply::NoRoom,
        Reply::Past(37_500),
        Reply::Compacted(33),
        Reply::NotLive,
    ]?)?;
    Ok(answers)
}

const THREADS: &[u8] =
    b"thread\nalloc a 200000\nlock\nwalk\nunlock\nthread\nalloc b 300000\nfree @8\nthread\nround\nround\nsize b\nalloc c 520192\nrealloc b 520192\nthread\ninplace b 400000\nput b 40000 1\ncompact\nget @0 0\n";

#[test]
fn reports_rounds_of_threads(rt: HostRuntime) -> Result<(), Fail> {
    let alloc = rt.alloc();
    let script = read_script(alloc, THREADS).ok().ok_or("script")?;
    let answers = answered(alloc)?;
    let image = three_blocks(&rt, alloc)?;
    let text = report(alloc, &script, &answers, &image)?;
    let first =
        "0 0 alloc 8192\n0 0 lock ok\n0 0 walk 8192 200000 back\n0 0 walk 212992 300000 back\n0 0 walk end 2\n0 0 unlock ok\n0 1 alloc 212992\n0 1 free notlive\n";
    let third =
        "2 0 size 300000\n2 0 alloc nofit\n2 0 realloc nofit\n2 1 inplace noroom\n2 1 put past 37500\n2 1 compact 33\n2 1 get notlive\n";
    let whole = format!(in alloc; "{first}{third}{THREE_BLOCKS}")?;
    assert!(rt; text.as_bytes() == whole.as_bytes());
    Ok(())
}

#[test]
fn sums_rounds_of_threads(rt: HostRuntime) -> Result<(), Fail> {
    let alloc = rt.alloc();
    let script = read_script(alloc, THREADS).ok().ok_or("script")?;
    let answers = answered(alloc)?;
    let image = three_blocks(&rt, alloc)?;
    let text = summary(alloc, &script, &answers, &image)?;
    let lines = "commands 13\nnofit 2\nnotlive 2\npast 1\nblocks 3 bytes 131146\n";
    assert!(rt; text.as_bytes() == lines.as_bytes());
    Ok(())
}

#[test]
fn sums_no_commands(rt: HostRuntime) -> Result<(), Fail> {
    let alloc = rt.alloc();
    let script = generate(alloc, 0, 42)?;
    let mut answers = Answers::new(alloc);
    answers.add_round()?;
    answers.add_thread(Vec::new(alloc))?;
    let image = three_blocks(&rt, alloc)?;
    let text = summary(alloc, &script, &answers, &image)?;
    let lines = "commands 0\nnofit 0\nnotlive 0\npast 0\nblocks 3 bytes 131146\n";
    assert!(rt; text.as_bytes() == lines.as_bytes());
    Ok(())
}

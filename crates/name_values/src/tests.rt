use super::*;
use heap_model::{Call, Reply};
use script_text::{Command, Target};
use std::test::*;

const A: Command = Command::Alloc {
    name: 0,
    n: 8,
    zero: false,
};

const B: Command = Command::Alloc {
    name: 2,
    n: 8,
    zero: false,
};

fn size(name: u32) -> Command {
    Command::Size {
        target: Target::Name(name),
    }
}

// Two threads assign a name, and a third one assigns none.
#[test]
fn the_highest_thread_is_heard(rt: HostRuntime) -> Result<(), Fail> {
    let alloc = rt.alloc();
    let mut first = Names::new(alloc);
    let mut second = Names::new(alloc);
    let mut third = Names::new(alloc);
    first.note(A, Reply::Address(16))?;
    first.note(B, Reply::Address(64))?;
    second.note(A, Reply::Address(32))?;
    second.note(A, Reply::NoFit)?;
    assert_eq!(rt; [first.get(0), first.get(1), first.get(2)], [16, 0, 64]);
    assert_eq!(rt; [second.get(0), third.get(0)], [0, 0]);
    let mut news = Vec::new(alloc);
    news.extend_from_slice(first.news())?;
    news.extend_from_slice(second.news())?;
    news.extend_from_slice(third.news())?;
    first.learn(news.as_slice())?;
    second.learn(news.as_slice())?;
    third.learn(news.as_slice())?;
    assert_eq!(rt; [first.get(0), second.get(0), third.get(0)], [0, 0, 0]);
    assert_eq!(rt; [first.get(2), second.get(2), third.get(2)], [64, 64, 64]);
    assert_eq!(rt; first.news().len(), 0);
    assert_eq!(rt; third.call_for(size(2)), Call::Size { addr: 64 });
    Ok(())
}

// A reallocation assigns its name where it succeeds.
#[test]
fn a_refused_reallocation_assigns_nothing(rt: HostRuntime) -> Result<(), Fail> {
    let mut names = Names::new(rt.alloc());
    let grow = Command::Realloc {
        target: Target::Name(1),
        n: 9,
        in_place: false,
    };
    names.note(grow, Reply::Address(48))?;
    names.note(grow, Reply::NoFit)?;
    assert_eq!(rt; [names.get(0), names.get(1)], [0, 48]);
    Ok(())
}

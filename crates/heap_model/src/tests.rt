use super::*;

#[test]
fn words_are_kept(rt: HostRuntime) -> Result<(), OutOfMemory> {
    let mut words = Words::new(rt.alloc(), 9)?;
    words.set(8, 7);
    assert_eq!(rt; words.at(8), 7);
    assert_eq!(rt; words.at(7), 0);
    assert_eq!(rt; words.as_slice().len(), 9);
    let flags = filled(rt.alloc(), true, 3)?;
    assert_eq!(rt; flags.len(), 3);
    assert_eq!(rt; flags.get(2), Some(&true));
    Ok(())
}

#[test]
fn marks_of_each_kind(rt: HostRuntime) {
    assert!(rt; Mark::HEADER.kind == Kind::Header);
    assert!(rt; Mark::FREE.kind == Kind::Free);
    assert!(rt; Mark::VS.kind == Kind::Vs);
    let mark = Mark::lfh(5, 3);
    assert!(rt; mark.kind == Kind::Lfh);
    assert_eq!(rt; mark.bucket, 5);
    assert_eq!(rt; mark.slot, 3);
    assert_eq!(rt; Mark::back(100).unused, 100);
}

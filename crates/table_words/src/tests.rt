use super::*;

/// The largest table has 5,265,542 words, about 42 MB.
const LARGEST: Limits = Limits {
    segments: 16,
    large_pages: 4096,
    slots: 16,
    callers: 64,
};

const SMALLEST: Limits = Limits {
    segments: 1,
    large_pages: 0,
    slots: 1,
    callers: 1,
};

#[test]
fn places_of_words(rt: HostRuntime) {
    assert_eq!(rt; count(&LARGEST), 5_265_542);
    assert_eq!(rt; active_at(1), 6);
    assert_eq!(rt; hint_at(1, 0), 134);
    assert_eq!(rt; hint_at(128, 15), 2181);
    assert_eq!(rt; tag_at(&LARGEST, 2), 2184);
    assert_eq!(rt; bitmap_at(&SMALLEST, 2, 3), 2449);
    assert_eq!(rt; size_at(&SMALLEST, 516), 3978);
    assert_eq!(rt; data_from(&SMALLEST), 68_998);
}

#[test]
fn all_words_are_there(rt: HostRuntime) -> Result<(), OutOfMemory> {
    let words = words_of(rt.alloc(), &SMALLEST)?;
    assert_eq!(rt; words.as_slice().len(), 200_070);
    Ok(())
}

use super::*;

/// The key of the heap with seed 42, and a place of 2 granules at 8240 in it.
#[test]
fn words_are_encoded_with_the_key(rt: HostRuntime) {
    let key = key_of(42);
    assert_eq!(rt; key, 0x9e37_79b9_7f4a_7c3f);
    let head = Head {
        units: 2,
        prev: 0,
        unused: 0,
        busy: true,
    };
    assert_eq!(rt; encode(head, key, 8240), 0x9e37_78b9_7f4a_5c0d);
    assert_eq!(rt; decode(0x9e37_78b9_7f4a_5c0d, key, 8240), Some(head));
    // The same word at the address of another granule has bits that no header has.
    assert_eq!(rt; decode(0x9e37_78b9_7f4a_5c0d, key, 8240 + (1 << 41)), None);
}

// Large blocks, zeroed blocks and the words of blocks.
use super::{ONE_SEGMENT, runs};
use std::test::Fail;

#[test]
fn large_blocks(rt: HostRuntime) -> Result<(), Fail> {
    let alloc = rt.alloc();
    let one = "0 0 alloc 1048576
large 256 128
block 1048576 520193 large
blocks 1 bytes 520193
";
    runs(&rt, alloc, &ONE_SEGMENT, "alloc x 520193\n", 0, one)?;
    let words = ["--mode", "one", "--segments", "1", "--large", "128"];
    runs(&rt, alloc, &words, "alloc x 520193\n", 0, one)?;
    let none = "0 0 alloc nofit\nblocks 0 bytes 0\n";
    let words = ["--mode", "one", "--large", "127"];
    runs(&rt, alloc, &words, "alloc x 520193\n", 0, none)?;
    let most = "alloc x 18446744073709551615\n";
    runs(&rt, alloc, &ONE_SEGMENT, most, 0, none)?;
    let text = "alloc a 520193
put a 65024 7
get a 65024
get a 65025
free a
zalloc b 520193
get b 65024
size b
alloc c 3670016
alloc d 520193
free b
free b
";
    let written = "0 0 alloc 1048576
0 0 put ok
0 0 get 7
0 0 get past 65025
0 0 free ok
0 0 zalloc 1048576
0 0 get 0
0 0 size 520193
0 0 alloc 1572864
0 0 alloc nofit
0 0 free ok
0 0 free notlive
large 384 896
block 1572864 3670016 large
blocks 1 bytes 3670016
";
    runs(&rt, alloc, &ONE_SEGMENT, text, 0, written)
}

#[test]
fn words_of_blocks(rt: HostRuntime) -> Result<(), Fail> {
    let alloc = rt.alloc();
    let past = "0 0 alloc 8256
0 0 get past 3
segment 0
vs 2 16
free 18 238 committed 0
block 8256 24 vs
blocks 1 bytes 24
";
    runs(&rt, alloc, &ONE_SEGMENT, "alloc x 24\nget x 3\n", 0, past)?;
    let text = "alloc x 16
put x 0 5
free x
alloc y 16
get y 0
free y
zalloc z 16
get z 0
put x 0 1
";
    let written = "0 0 alloc 8256
0 0 put ok
0 0 free ok
0 0 alloc 8256
0 0 get 5
0 0 free ok
0 0 zalloc 8256
0 0 get 0
0 0 put ok
segment 0
vs 2 16
free 18 238 committed 0
block 8256 16 vs
blocks 1 bytes 16
";
    runs(&rt, alloc, &ONE_SEGMENT, text, 0, written)
}

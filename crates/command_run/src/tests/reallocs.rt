// Blocks that get another size, where they are or elsewhere.
use super::{ONE_SEGMENT, push_lines, runs};
use std::alloc::{AllocError, Global};
use std::test::Fail;

#[test]
fn blocks_that_move_and_stay(rt: HostRuntime) -> Result<(), Fail> {
    let alloc = rt.alloc();
    let text = "alloc x 100
realloc x 113
alloc y 16
inplace x 500
size x
";
    let written = "0 0 alloc 8256
0 0 realloc 8256
0 0 alloc 8400
0 0 inplace noroom
0 0 size 113
segment 0
vs 2 16
free 18 238 committed 0
block 8256 113 vs
block 8400 16 vs
blocks 2 bytes 129
";
    runs(&rt, alloc, &ONE_SEGMENT, text, 0, written)?;
    // the place of c took all three granules that were there
    let text = "alloc a 32
alloc b 16
free a
alloc c 16
alloc d 16
realloc c 32
";
    let written = "0 0 alloc 8256
0 0 alloc 8304
0 0 free ok
0 0 alloc 8256
0 0 alloc 8336
0 0 realloc 8256
segment 0
vs 2 16
free 18 238 committed 0
block 8256 32 vs
block 8304 16 vs
block 8336 16 vs
blocks 3 bytes 64
";
    runs(&rt, alloc, &ONE_SEGMENT, text, 0, written)
}

#[test]
fn blocks_of_pages(rt: HostRuntime) -> Result<(), Fail> {
    let alloc = rt.alloc();
    let words = ["--mode", "one", "--segments", "1", "--large", "147"];
    let text = "alloc x 520192
put x 0 5
realloc x 600000
get x 0
realloc x 100
get x 0
";
    let written = "0 0 alloc 8192
0 0 put ok
0 0 realloc 1048576
0 0 get 5
0 0 realloc 8256
0 0 get 5
segment 0
vs 2 16
free 18 238 committed 111
block 8256 100 vs
blocks 1 bytes 100
";
    runs(&rt, alloc, &words, text, 0, written)?;
    let text = "alloc x 131073\nrealloc x 520192\nrealloc x 131073\n";
    let written = "0 0 alloc 8192
0 0 realloc 8192
0 0 realloc 8192
segment 0
back 2 33
free 35 221 committed 94
block 8192 131073 back
blocks 1 bytes 131073
";
    runs(&rt, alloc, &ONE_SEGMENT, text, 0, written)
}

/// No block is there, none of the ranges fits, or the block may not move: the block is as it was, and so is its name.
#[test]
fn reallocations_that_are_refused(rt: HostRuntime) -> Result<(), Fail> {
    let alloc = rt.alloc();
    let text = "realloc x 16
inplace @8256 8
alloc x 131073
alloc y 131073
put x 0 5
realloc x 18446744073709551615
inplace x 131074
inplace x 135169
inplace x 16
get x 0
size x
inplace y 520192
free y
realloc y 8
size y
";
    let written = "0 0 realloc notlive
0 0 inplace notlive
0 0 alloc 8192
0 0 alloc 143360
0 0 put ok
0 0 realloc nofit
0 0 inplace 8192
0 0 inplace noroom
0 0 inplace noroom
0 0 get 5
0 0 size 131074
0 0 inplace 143360
0 0 free ok
0 0 realloc notlive
0 0 size notlive
segment 0
back 2 33
free 35 221 committed 127
block 8192 131074 back
blocks 1 bytes 131074
";
    runs(&rt, alloc, &ONE_SEGMENT, text, 0, written)
}

/// Two words of a block are read back, behind a line and what is written for it.
fn push_step(
    text: &mut String,
    written: &mut String,
    line: &str,
    reply: &str,
) -> Result<(), AllocError> {
    text.push_str(line)?;
    text.push_str("get x 0\nget x 12\n")?;
    written.push_str(reply)?;
    written.push_str("0 0 get 7\n0 0 get 9\n")
}

/// Each layer to each other one, and where the block is then.
const MOVES: [(&str, &str); 12] = [
    ("realloc x 256\n", "0 0 realloc 73792\n"),
    ("realloc x 300\n", "0 0 realloc 13040\n"),
    ("realloc x 200000\n", "0 0 realloc 77824\n"),
    ("realloc x 250\n", "0 0 realloc 73792\n"),
    ("realloc x 150000\n", "0 0 realloc 77824\n"),
    ("realloc x 1000\n", "0 0 realloc 13040\n"),
    ("realloc x 520193\n", "0 0 realloc 1048576\n"),
    ("realloc x 256\n", "0 0 realloc 73792\n"),
    ("realloc x 1000000\n", "0 0 realloc 1048576\n"),
    ("realloc x 300000\n", "0 0 realloc 77824\n"),
    ("realloc x 600000\n", "0 0 realloc 1048576\n"),
    ("realloc x 104\n", "0 0 realloc 12880\n"),
];

/// The block x moves by these steps. Blocks of 256 bytes are the front end's once 17 of them live in the
/// variable-size layer, the last place of which ends at 12864; behind x, y keeps its gap at 8 granules. In an empty subsegment of 15
/// blocks the draws e2393051, 01112f35 and d3509d35 (hexadecimal) pick block 0.
fn moving_script(alloc: Global) -> Result<(String, String), AllocError> {
    let mut text = String::new(alloc);
    let mut written = String::new(alloc);
    push_lines(&mut text, "alloc a", (0, 1), 17, " 256\n")?;
    push_lines(&mut written, "0 0 alloc ", (8256, 272), 17, "\n")?;
    text.push_str("alloc x 100\nalloc y 16\nput x 0 7\nput x 12 9\n")?;
    written.push_str("0 0 alloc 12880\n0 0 alloc 13008\n0 0 put ok\n0 0 put ok\n")?;
    for (line, reply) in MOVES {
        push_step(&mut text, &mut written, line, reply)?;
    }
    written.push_str(
        "segment 0
vs 2 16
lfh 18 1 bucket 16 slot 0
free 19 237 committed 74
",
    )?;
    push_lines(&mut written, "block ", (8256, 272), 17, " 256 vs\n")?;
    written.push_str("block 12880 104 vs\nblock 13008 16 vs\nblocks 19 bytes 4472\n")?;
    Ok((text, written))
}

#[test]
fn through_all_layers(rt: HostRuntime) -> Result<(), Fail> {
    let alloc = rt.alloc();
    let (text, written) = moving_script(alloc)?;
    runs(&rt, alloc, &ONE_SEGMENT, text.as_str(), 0, written.as_str())
}

// The live blocks, and their sum.
ghost use Rattle.std.specs.Prelude.{◌≡◌, ◌++◌, OnOk, string_bytes, flat_map};
ghost use Rattle.layout_decode.specs.Decode.{decode, IsReadable};
ghost use Rattle.report_text.specs.Report.{block_line, last_line};

use crate::words::{push_word, word_of_layer};
use heap_model::Block;
use layout_decode::{Image, count_blocks, next_block};
use std::alloc::AllocError;

/// A line for each live block, by address, and the last line.
pub fn push_blocks(text: &mut String, image: &Image) -> Result<(), AllocError>
    requires { IsReadable image.now }
    ensures { OnOk result (string_bytes text.new
        ≡ string_bytes text.old ++ (flat_map block_line (decode image.now) ++ last_line (decode image.now))) }
{
    push_each(text, image)?;
    push_sum(text, image)
}

fn push_each(text: &mut String, image: &Image) -> Result<(), AllocError>
    requires { IsReadable image.now }
    ensures { OnOk result (string_bytes text.new ≡ string_bytes text.old ++ flat_map block_line (decode image.now)) }
{
    // addresses end with the large area, and chunks and large blocks lie one behind the other
    let _pages = image.descs.pages();
    let _chunk = image.heads.chunk_at(0);
    let _rows = image.large.blocks();
    let mut from = 0;
    while let Some(block) = next_block(image, from) {
        push_block(text, &block)?;
        from = block.addr + 1;
    }
    Ok(())
}

fn push_block(text: &mut String, block: &Block) -> Result<(), AllocError>
    ensures { OnOk result (string_bytes text.new ≡ string_bytes text.old ++ block_line block.now) }
{
    push_word(text, "block ", block.addr)?;
    push_word(text, " ", block.size)?;
    text.push_str(" ")?;
    text.push_str(word_of_layer(block.layer))?;
    text.push_str("\n")
}

/// The number of blocks, and the sum of the sizes that they were asked for.
pub fn push_sum(text: &mut String, image: &Image) -> Result<(), AllocError>
    requires { IsReadable image.now }
    ensures { OnOk result (string_bytes text.new ≡ string_bytes text.old ++ last_line (decode image.now)) }
{
    let (blocks, bytes) = count_blocks(image);
    push_word(text, "blocks ", blocks)?;
    push_word(text, " bytes ", bytes)?;
    text.push_str("\n")
}

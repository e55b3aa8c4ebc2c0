// The door for C to reading and printing: the proved functions over slices and an answer of eight words (host/include/tulbazhik.h). tulbazhik_trees_c exports them under their C names.
#![tactic(auto)]

ghost use Rattle.std.specs.Prelude.{◌≡◌, length};
ghost use Rattle.reader.specs.Reading.{reading, read_into};
ghost use Rattle.printer.specs.Printing.{printing, printed_into};
ghost use Rattle.words.specs.Words.{length_words};
ghost use Rattle.tulbazhik_trees.specs.Texts.{print_words};

// The trees of a source, written as a table into the room lent.
#[tactic(auto, unfolding(words::specs::Words::length_words))]
pub fn tulbazhik_read(src: &[u8], table: &mut [u8], answer: &mut [u64; 8])
    ensures { (answer.new ≡ length_words (reading src.now (length table.old))) × (table.new ≡ read_into src.now table.old) }
{
    match reader::read(src, table) {
        Ok(n) => words::put_length(n, answer),
        Err(r) => words::put_refusal(r, 0, answer),
    }
}

// A table laid out at a width, written into the room lent.
#[tactic(auto, unfolding(crate::specs::Texts::print_words))]
pub fn tulbazhik_print(table: &[u8], width: u32, text: &mut [u8], answer: &mut [u64; 8])
    ensures { (answer.new ≡ print_words (printing table.now width (length text.old))) × (text.new ≡ printed_into table.now width text.old) }
{
    match printer::print(table, width, text) {
        Ok(written) => words::put_text(written.len, written.looked, answer),
        Err(r) => words::put_refusal(r, 0, answer),
    }
}

// The archive for C callers of reading and printing: the library's functions under their C names, with their clauses again (host/include/tulbazhik.h).
#![tactic(auto)]

ghost use Rattle.std.specs.Prelude.{◌≡◌, length};
ghost use Rattle.reader.specs.Reading.{reading, read_into};
ghost use Rattle.printer.specs.Printing.{printing, printed_into};
ghost use Rattle.words.specs.Words.{length_words};
ghost use Rattle.tulbazhik_trees.specs.Texts.{print_words};

#[unsafe(no_mangle)]
pub extern "C" fn tulbazhik_read(src: &[u8], table: &mut [u8], answer: &mut [u64; 8])
    ensures { (answer.new ≡ length_words (reading src.now (length table.old))) × (table.new ≡ read_into src.now table.old) }
{
    tulbazhik_trees::tulbazhik_read(src, table, answer);
}

#[unsafe(no_mangle)]
pub extern "C" fn tulbazhik_print(table: &[u8], width: u32, text: &mut [u8], answer: &mut [u64; 8])
    ensures { (answer.new ≡ print_words (printing table.now width (length text.old))) × (text.new ≡ printed_into table.now width text.old) }
{
    tulbazhik_trees::tulbazhik_print(table, width, text, answer);
}

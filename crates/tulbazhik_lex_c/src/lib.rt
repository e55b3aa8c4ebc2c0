// The archive for C callers of lexing: the library's function under its C name, with its clause again (host/include/tulbazhik.h).
#![tactic(auto)]

ghost use Rattle.std.specs.Prelude.{◌≡◌};
ghost use Rattle.lexer.specs.Lexing.{next_token};
ghost use Rattle.words.specs.Words.{answer_words};

#[unsafe(no_mangle)]
pub extern "C" fn tulbazhik_next_token(src: &[u8], at: usize, answer: &mut [u64; 8])
    ensures { answer.new ≡ answer_words (next_token src.now at) }
{
    tulbazhik_lex::tulbazhik_next_token(src, at, answer);
}

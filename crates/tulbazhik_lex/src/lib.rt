// The door for C to lexing: the proved function over a slice, a place and an answer of eight words (host/include/tulbazhik.h). tulbazhik_lex_c exports it under its C name.
// Feeding, reading and printing have crates and archives of their own: where the lexer has one caller, the compiler merges the two.
#![tactic(auto)]

ghost use Rattle.std.specs.Prelude.{◌≡◌};
ghost use Rattle.lexer.specs.Lexing.{next_token};
ghost use Rattle.words.specs.Words.{answer_words};

// The next token from a place on, the end, or a refusal.
pub fn tulbazhik_next_token(src: &[u8], at: usize, answer: &mut [u64; 8])
    ensures { answer.new ≡ answer_words (next_token src.now at) }
{
    words::put_lexed(lexer::next_token(src, at), answer);
}

// The class of every byte, by its number: 0 to 9 in the order of `Class`, and 10 for those of class 9 that a literal goes on with.
ghost use Rattle.std.specs.Prelude.{◌≡◌};
ghost use Rattle.classes.specs.Numbers.{number_of};

// Numbers and no `Class`: document 02, 4/12 wants a table of 256, and 10 is the number of no class.
const CLASS: [u8; 256] = [
    9, // zero
    9, 9, 9, 9, 9, 9, 9, 9, 0, // tab
    1, // LF
    9, // vertical tab
    6, // form feed
    1, // CR
    9, 9, 9, 9, 9, 9, 9, 9, 9, 9, 9, 9, 9, 9, 9, 9, 9, 9, 0, // space
    9, 9, 9, 9, 9, 9, 9, 3, // `(`
    4, // `)`
    9, 9, 9, 7, // `-`
    9, 9, 8, // `0`
    8, 8, 8, 8, 8, 8, 8, 8, 8, // `9`
    9, 2, // `;`
    9, 9, 9, 9, 5, // `@`
    10, // `A`
    10, 10, 10, 10, 10, // `F`
    9, 9, 9, 9, 9, 9, 9, 9, 9, 9, 9, 9, 9, 9, 9, 9, 9, 9, 9, 9, // `Z`
    9, 9, 9, 9, 10, // `_`
    9, 10, // `a`
    10, 10, 10, 10, 10, // `f`
    9, 9, 9, 9, 9, 9, 9, 9, 9, 9, 9, 9, 9, 9, 9, 9, 9, 9, 9, 9, // `z`
    9, 9, 9, 9, 9, // the last of ASCII
    9, // 0x80
    9, 9, 9, 9, 9, 9, 9, 9, 9, 9, 9, 9, 9, 9, 9, 9, 9, 9, 9, 9, 9, 9, 9, 9, 9, 9, 9, 9, 9, 9, 9, 9,
    9, 9, 9, 9, 9, 9, 9, 9, 9, 9, 9, 9, 9, 9, 9, 9, 9, 9, 9, 9, 9, 9, 9, 9, 9, 9, 9, 9, 9, 9, 9, 9,
    9, 9, 9, 9, 9, 9, 9, 9, 9, 9, 9, 9, 9, 9, 9, 9, 9, 9, 9, 9, 9, 9, 9, 9, 9, 9, 9, 9, 9, 9, 9, 9,
    9, 9, 9, 9, 9, 9, 9, 9, 9, 9, 9, 9, 9, 9, 9, 9, 9, 9, 9, 9, 9, 9, 9, 9, 9, 9, 9, 9, 9, 9, 9, // 0xff
];

// One read of the table.
pub fn number_of(b: u8) -> u8
    ensures { result ≡ number_of b }
{
    CLASS[b as usize]
}

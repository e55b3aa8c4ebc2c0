// The archive for C callers of settings per project: the library's functions under their C names, with their clauses again (host/include/tulbazhik.h).
#![tactic(auto)]

ghost use Rattle.std.specs.Prelude.{◌≡◌, length};
ghost use Rattle.settings.specs.LookUps.{edition_in, width_in, style_in};
ghost use Rattle.settings.specs.Writing.{copy_of, width_setting, style_setting};
ghost use Rattle.tulbazhik_settings.specs.Sides.{number_words, style_words, CopiedWords};

#[unsafe(no_mangle)]
pub extern "C" fn tulbazhik_edition(project: &[u8], house: &[u8], answer: &mut [u64; 8])
    ensures { answer.new ≡ number_words (edition_in project.now house.now) }
{
    tulbazhik_settings::tulbazhik_edition(project, house, answer);
}

#[unsafe(no_mangle)]
pub extern "C" fn tulbazhik_width(project: &[u8], house: &[u8], answer: &mut [u64; 8])
    ensures { answer.new ≡ number_words (width_in project.now house.now) }
{
    tulbazhik_settings::tulbazhik_width(project, house, answer);
}

#[unsafe(no_mangle)]
pub extern "C" fn tulbazhik_style(project: &[u8], house: &[u8], answer: &mut [u64; 8])
    ensures { answer.new ≡ style_words (style_in project.now house.now) }
{
    tulbazhik_settings::tulbazhik_style(project, house, answer);
}

#[unsafe(no_mangle)]
pub extern "C" fn tulbazhik_write_width(
    file: &[u8],
    width: u32,
    copy: &mut [u8],
    answer: &mut [u64; 8],
)
    ensures { CopiedWords (copy_of file.now (width_setting width) (length copy.old)) answer.new copy.old copy.new }
{
    tulbazhik_settings::tulbazhik_write_width(file, width, copy, answer);
}

#[unsafe(no_mangle)]
pub extern "C" fn tulbazhik_write_style(
    file: &[u8],
    name: &[u8],
    copy: &mut [u8],
    answer: &mut [u64; 8],
)
    ensures { CopiedWords (copy_of file.now (style_setting name.now) (length copy.old)) answer.new copy.old copy.new }
{
    tulbazhik_settings::tulbazhik_write_style(file, name, copy, answer);
}

// That what is in memory is short: 64 bits hold each length.
ghost use Rattle.std.specs.Prelude.{◌<◌, ◌^◌, All, length};

use flume_value::Str;
use script_program::Program;

/// That these texts are short.
pub fn texts_short(texts: &[Str])
    ensures { All (λ text. length text < 2 ^ 64) texts.now }
{
    for text in texts {
        short(text);
    }
}

/// That the names are short under which a program's outputs read collections.
pub fn names_short(program: &Program)
    ensures { All (λ entry. length entry.1.name < 2 ^ 64) program.now.script.outputs }
{
    for number in 0..program.output_count() {
        short(&program.output(number).name);
    }
}

fn short(text: &Str)
    ensures { length text.now < 2 ^ 64 }
{
    let _length = text.len();
}

// The smallest parts of a C text.
ghost use Rattle.std.specs.Prelude.{◌∷◌, OnOk, IsTrue};
ghost use Rattle.c_tree.specs.Lexical.{Word, Mark, is_mark};
ghost use Rattle.c_write.specs.Adds.{Adds, anything, apart, is_word};

use scheme_data::{OutOfMemory, Text};

pub fn put_mark(out: &mut Text, mark: u8) -> Result<(), OutOfMemory>
    requires { IsTrue (is_mark mark) }
    ensures { OnOk result (Adds apart anything out.old out.new (λ ts. Mark mark ∷ ts)) }
{
    out.push(mark)?;
    Ok(())
}

pub fn put_space(out: &mut Text) -> Result<(), OutOfMemory>
    ensures { OnOk result (Adds apart anything out.old out.new (λ ts. ts)) }
{
    out.push(b' ')?;
    Ok(())
}

pub fn put_line_end(out: &mut Text) -> Result<(), OutOfMemory>
    ensures { OnOk result (Adds apart anything out.old out.new (λ ts. ts)) }
{
    out.push(b'\n')?;
    Ok(())
}

pub fn put_word(out: &mut Text, word: &[u8]) -> Result<(), OutOfMemory>
    requires { IsTrue (is_word word.now) }
    ensures { OnOk result (Adds anything apart out.old out.new (λ ts. Word word.now ∷ ts)) }
{
    out.extend(word)?;
    Ok(())
}

pub fn put_name(out: &mut Text, name: &Text) -> Result<(), OutOfMemory>
    requires { IsTrue (is_word name.now) }
    ensures { OnOk result (Adds anything apart out.old out.new (λ ts. Word name.now ∷ ts)) }
{
    put_word(out, name.as_bytes())?;
    Ok(())
}

fn put_four_spaces(out: &mut Text) -> Result<(), OutOfMemory>
    ensures { OnOk result (Adds apart anything out.old out.new (λ ts. ts)) }
{
    out.extend(b"    ")?;
    Ok(())
}

// Deeper lines are indented no further. The depth may grow with the text, whose indents alone would then be quadratic in it.
const MOST_STEPS: u64 = 16;

/// Four spaces for each step of the depth.
pub fn put_indent(out: &mut Text, depth: u64) -> Result<(), OutOfMemory>
    ensures { OnOk result (Adds anything anything out.old out.new (λ ts. ts)) }
{
    for _ in 0..depth.min(MOST_STEPS) {
        put_four_spaces(out)?;
    }
    Ok(())
}

pub fn put_comma(out: &mut Text) -> Result<(), OutOfMemory>
    ensures { OnOk result (Adds apart anything out.old out.new (λ ts. Mark 44 ∷ ts)) }
{
    put_mark(out, b',')?;
    put_space(out)?;
    Ok(())
}

/// The end of a statement or a declaration, and of its line.
pub fn put_end(out: &mut Text) -> Result<(), OutOfMemory>
    ensures { OnOk result (Adds apart anything out.old out.new (λ ts. Mark 59 ∷ ts)) }
{
    put_mark(out, b';')?;
    put_line_end(out)?;
    Ok(())
}

/// `{` and a line end.
pub fn begin_block(out: &mut Text) -> Result<(), OutOfMemory>
    ensures { OnOk result (Adds anything anything out.old out.new (λ ts. Mark 123 ∷ ts)) }
{
    put_mark(out, b'{')?;
    put_line_end(out)?;
    Ok(())
}

pub fn open_block(out: &mut Text) -> Result<(), OutOfMemory>
    ensures { OnOk result (Adds apart anything out.old out.new (λ ts. Mark 123 ∷ ts)) }
{
    put_space(out)?;
    put_mark(out, b'{')?;
    put_line_end(out)?;
    Ok(())
}

pub fn close_block(out: &mut Text) -> Result<(), OutOfMemory>
    ensures { OnOk result (Adds anything anything out.old out.new (λ ts. Mark 125 ∷ ts)) }
{
    put_mark(out, b'}')?;
    put_line_end(out)?;
    Ok(())
}

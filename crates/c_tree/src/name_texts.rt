// The texts of names.
ghost use Rattle.std.specs.Prelude.{◌≡◌, ◌++◌, ◌<◌, IfOk, OnOk, IsTrue};
ghost use Rattle.scheme_data.specs.Symbols.{IsSymbol};
ghost use Rattle.c_tree.specs.Names.{hex_digit, mangled, mangled_byte, is_alphanumeric, function_name, maker_name, initializer_name, is_function_name, local_name, label_name};

use crate::name_tests::tells_alphanumeric;
use scheme_data::{OutOfMemory, Text, push_number};
use std::alloc::Global;

// A hexadecimal digit.
fn hex_byte(n: u8) -> u8
    requires { n < 16 }
    ensures { result ≡ hex_digit n }
{
    if n < 10 { b'0' + n } else { 87 + n }
}

fn push_mangled_byte(text: &mut Text, byte: u8) -> Result<(), OutOfMemory>
    ensures { OnOk result (text.new ≡ text.old ++ mangled_byte byte) }
{
    if tells_alphanumeric(byte) {
        return text.push(byte);
    }
    text.extend(&[b'_', hex_byte(byte / 16), hex_byte(byte % 16)])
}

pub fn push_mangled(text: &mut Text, name: &[u8]) -> Result<(), OutOfMemory>
    ensures { OnOk result (text.new ≡ text.old ++ mangled name.now) }
{
    for byte in name {
        push_mangled_byte(text, *byte)?;
    }
    Ok(())
}

/// The C name of a function of a module.
#[tactic(auto, unfolding(crate::specs::Names::function_name))]
pub fn function_name_text(
    alloc: Global,
    module_name: &[u8],
    name: &[u8],
) -> Result<Text, OutOfMemory>
    ensures value { IfOk result (λ t. t ≡ function_name module_name.now name.now) }
    ensures named { IfOk result (λ t.
        IsSymbol module_name.now → IsSymbol name.now → IsTrue (is_function_name t)) }
{
    let mut text = Text::from_bytes(alloc, b"f_")?;
    push_mangled(&mut text, module_name)?;
    text.extend(b"__")?;
    push_mangled(&mut text, name)?;
    Ok(text)
}

/// The C name of the maker of a module.
#[tactic(auto, unfolding(crate::specs::Names::maker_name))]
pub fn maker_name_text(alloc: Global, module_name: &[u8]) -> Result<Text, OutOfMemory>
    ensures value { IfOk result (λ t. t ≡ maker_name module_name.now) }
    ensures named { IfOk result (λ t. IsSymbol module_name.now → IsTrue (is_function_name t)) }
{
    let mut text = Text::from_bytes(alloc, b"c_")?;
    push_mangled(&mut text, module_name)?;
    Ok(text)
}

/// The C name of the initialisation of a module.
#[tactic(auto, unfolding(crate::specs::Names::initializer_name))]
pub fn initializer_name_text(alloc: Global, module_name: &[u8]) -> Result<Text, OutOfMemory>
    ensures value { IfOk result (λ t. t ≡ initializer_name module_name.now) }
    ensures named { IfOk result (λ t. IsSymbol module_name.now → IsTrue (is_function_name t)) }
{
    let mut text = Text::from_bytes(alloc, b"i_")?;
    push_mangled(&mut text, module_name)?;
    Ok(text)
}

/// The name of the local with a number.
#[tactic(auto, unfolding(crate::specs::Names::local_name))]
pub fn local_name_text(alloc: Global, n: u32) -> Result<Text, OutOfMemory>
    ensures { IfOk result (λ t. t ≡ local_name n) }
{
    let mut text = Text::from_bytes(alloc, b"x")?;
    push_number(&mut text, n as i64)?;
    Ok(text)
}

/// The name of the label with a number.
#[tactic(auto, unfolding(crate::specs::Names::label_name))]
pub fn label_name_text(alloc: Global, n: u32) -> Result<Text, OutOfMemory>
    ensures { IfOk result (λ t. t ≡ label_name n) }
{
    let mut text = Text::from_bytes(alloc, b"L")?;
    push_number(&mut text, n as i64)?;
    Ok(text)
}

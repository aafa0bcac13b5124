// A line of an interface's text, taken apart.
ghost use Rattle.std.specs.Prelude.{◌≡◌, ◌≢◌, ◌≤◌, ◌++◌, ◌∷◌, ℕ, length, IfOk, IfSome, IfNone, MatchOption, replicate};
ghost use Rattle.std.specs.List.{prefix_len};
ghost use Rattle.scheme_data.specs.Symbols.{IsSymbol};
ghost use Rattle.built_table.specs.declared.primitives.Ty.TheVariants.{Obj};
ghost use Rattle.iface_text.specs.Format.{types_text, row_line};
ghost use Rattle.iface_text.specs.Lines.{other_than, Lacks, module_line_name, row_of, untyped_row, NoRow, RowLine};

use crate::interface::{Row, RowKind};
use built_table::Ty;
use scheme_data::{List, OutOfMemory, Text, is_symbol};
use std::alloc::Global;

/// What stands before the first place of a byte, and what follows it.
#[derive(Drop)]
pub struct Cut<'a> {
    pub before: &'a [u8],
    pub after: &'a [u8],
}

/// The name of a row, and how many parameters it has.
#[derive(Drop)]
struct RowParts<'a> {
    name: &'a [u8],
    params: usize,
}

fn len_before(bytes: &[u8], byte: u8) -> usize
    ensures value { result ≡ prefix_len (other_than byte) bytes.now }
    ensures within { result ≤ length bytes.now }
{
    let mut n = 0;
    while n < bytes.len() && bytes[n] != byte {
        n += 1;
    }
    n
}

/// The bytes, cut where the byte stands first; none where it stands nowhere.
pub fn cut_at(bytes: &[u8], byte: u8) -> Option<Cut<'_>>
    ensures some { IfSome result (λ c. bytes.now ≡ c.before.now ++ (byte ∷ c.after.now)) }
    ensures before { IfSome result (λ c. Lacks byte c.before.now) }
    ensures none { IfNone result (Lacks byte bytes.now) }
{
    let len = len_before(bytes, byte);
    if len == bytes.len() {
        return None;
    }
    Some(Cut {
        before: &bytes[..len],
        after: &bytes[len + 1..],
    })
}

/// The name in a line `module NAME`; none where the line is no such line.
pub fn name_of_module_line(line: &[u8]) -> Option<&[u8]>
    ensures some { IfSome result (λ name. module_line_name line.now ≡ Some name.now) }
    ensures none { IfNone result (module_line_name line.now ≡ None) }
{
    let name = line.strip_prefix(b"module ")?;
    if !is_symbol(name) {
        return None;
    }
    Some(name)
}

/// How many parameters have these types; none where the bytes aren't types `obj`.
fn count_of_types(types: &[u8]) -> Option<usize>
    ensures { MatchOption result ((n : ℕ) → types.now ≢ types_text (replicate n Obj)) (λ n. types.now ≡ types_text (replicate n Obj)) }
{
    if types.is_empty() {
        return Some(0);
    }
    let mut rest = types.strip_prefix(b"obj")?;
    let mut count = 1;
    while !rest.is_empty() {
        rest = rest.strip_prefix(b" obj")?;
        count += 1;
    }
    Some(count)
}

fn parts_of_row(line: &[u8]) -> Option<RowParts<'_>>
    ensures some { IfSome result (λ p. IsSymbol p.name.now) }
    ensures are { IfSome result (λ p. line.now ≡ row_line (untyped_row p.name.now p.params)) }
    ensures none { IfNone result (NoRow line.now) }
{
    let cut = cut_at(line.strip_prefix(b"fun ")?, b' ')?;
    if !is_symbol(cut.before) {
        return None;
    }
    let types = cut.after.strip_prefix(b"(")?.strip_suffix(b") obj")?;
    let params = count_of_types(types)?;
    Some(RowParts {
        name: cut.before,
        params,
    })
}

fn objects(alloc: Global, count: usize) -> Result<List<Ty>, OutOfMemory>
    ensures { IfOk result (λ types. types ≡ replicate count Obj) }
{
    let mut types = List::with_capacity(alloc, count)?;
    for i in 0..count {
        types.push(Ty::Obj)?;
    }
    Ok(types)
}

/// The row of a line; none where the line is no row's.
pub fn read_row(alloc: Global, line: &[u8]) -> Result<Option<Row>, OutOfMemory>
    ensures value { IfOk result (λ row. row ≡ row_of line.now) }
    ensures some { IfOk result (λ row. IfSome row (λ r. RowLine line.now r)) }
    ensures none { IfOk result (λ row. IfNone row (NoRow line.now)) }
{
    let Some(parts) = parts_of_row(line) else {
        return Ok(None);
    };
    let name = Text::from_bytes(alloc, parts.name)?;
    let params = objects(alloc, parts.params)?;
    Ok(Some(Row {
        name,
        kind: RowKind::Fun(params, Ty::Obj),
    }))
}

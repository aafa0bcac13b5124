// Declarations and definitions.
ghost use Rattle.std.specs.Prelude.{◌≡◌, ◌∷◌, [], IfOk, IsTrue, codes};
ghost use Rattle.c_tree.specs.Lexical.{Word, Mark};
ghost use Rattle.c_tree.specs.Names.{is_local_name};
ghost use Rattle.c_tree.specs.Functions.{item_of, items_of};
ghost use Rattle.c_tree.specs.Spelling.{type_text, type_tokens, param_tokens, NamedVars};
ghost use Rattle.c_read.specs.Yields.{YieldsVar, YieldsLocals, YieldsDefinition, YieldsRest, YieldsNamed, YieldsItem, YieldsItems};
ghost use Rattle.c_read.specs.Sequences.{Took, TookAs, onto, all, after_mark};
ghost use Rattle.c_read.specs.Productions.{
  next_type,
  variable,
  next_variable,
  local,
  locals,
  definition,
  without_params,
  with_types,
  with_names,
  with_params,
  item_rest,
  external_rest,
  item_named,
  typed_item,
  item,
  parsed,
};

use crate::bodies::read_body;
use crate::skips::{
    global_name, is_extern_next, is_type_next, is_void_next, is_word_next, local_name, skip,
    skip_extern, type_word, word,
};
use crate::stop::Stop;
use crate::tokens::Tokens;
use crate::words::{names_function, names_global};
use c_tree::{CFun, CItem, CTy, CVar, Layout};
use c_words::CWord;
use scheme_data::{List, Text};
use std::alloc::Global;

#[tactic(auto, unfolding(crate::specs::Productions::next_type))]
fn read_next_type(tokens: &mut Tokens<'_>) -> Result<CTy, Stop>
    ensures read { Took (next_type tokens.old) result tokens.new }
    ensures spelled { IfOk result (λ t. tokens.old ≡ Mark 44 ∷ Word (type_text t) ∷ tokens.new) }
{
    skip(tokens, b',')?;
    type_word(tokens)
}

fn read_types(alloc: Global, tokens: &mut Tokens<'_>, first: CTy) -> Result<List<CTy>, Stop>
    ensures read { Took (onto (first ∷ []) (all next_type (after_mark 41) tokens.old)) result tokens.new }
    ensures spelled { IfOk result (λ ts. Word (type_text first) ∷ tokens.old ≡ type_tokens ts (Mark 41 ∷ tokens.new)) }
{
    let mut types = List::new(alloc);
    types.push(first)?;
    while !tokens.take_mark(b')') {
        let ty = read_next_type(tokens)?;
        types.push(ty)?;
    }
    Ok(types)
}

#[tactic(auto, unfolding(crate::specs::Productions::variable))]
fn read_variable(alloc: Global, tokens: &mut Tokens<'_>) -> Result<CVar, Stop>
    ensures read { Took (variable tokens.old) result tokens.new }
    ensures spelled { IfOk result (λ x. YieldsVar tokens.old x tokens.new) }
{
    let ty = type_word(tokens)?;
    let name = local_name(alloc, tokens)?;
    Ok(CVar { ty, name })
}

#[tactic(auto, unfolding(crate::specs::Productions::next_variable))]
fn read_next_variable(alloc: Global, tokens: &mut Tokens<'_>) -> Result<CVar, Stop>
    ensures read { Took (next_variable tokens.old) result tokens.new }
    ensures spelled { IfOk result (λ v. (tokens.old ≡ Mark 44 ∷ Word (type_text v.ty) ∷ Word v.name ∷ tokens.new) × IsTrue (is_local_name v.name)) }
{
    skip(tokens, b',')?;
    read_variable(alloc, tokens)
}

fn read_params(alloc: Global, tokens: &mut Tokens<'_>, first: CVar) -> Result<List<CVar>, Stop>
    ensures read { Took (onto (first ∷ []) (all next_variable (after_mark 41) tokens.old)) result tokens.new }
    ensures spelled { IfOk result (λ vs. (Word (type_text first.ty) ∷ Word first.name ∷ tokens.old ≡ param_tokens vs (Mark 41 ∷ tokens.new)) × (IsTrue (is_local_name first.name) → NamedVars vs)) }
{
    let mut params = List::new(alloc);
    params.push(first)?;
    while !tokens.take_mark(b')') {
        let param = read_next_variable(alloc, tokens)?;
        params.push(param)?;
    }
    Ok(params)
}

#[tactic(auto, unfolding(crate::specs::Productions::local))]
fn read_local(alloc: Global, tokens: &mut Tokens<'_>) -> Result<CVar, Stop>
    ensures read { Took (local tokens.old) result tokens.new }
    ensures spelled { IfOk result (λ x. YieldsVar tokens.old x (Mark 59 ∷ tokens.new)) }
{
    let var = read_variable(alloc, tokens)?;
    skip(tokens, b';').and(Ok(var))
}

fn read_locals(alloc: Global, tokens: &mut Tokens<'_>) -> Result<List<CVar>, Stop>
    ensures read { Took (locals tokens.old) result tokens.new }
    ensures spelled { IfOk result (λ x. YieldsLocals tokens.old x tokens.new) }
{
    let mut locals = List::new(alloc);
    while is_type_next(tokens) {
        let local = read_local(alloc, tokens)?;
        locals.push(local)?;
    }
    Ok(locals)
}

#[tactic(auto, unfolding(crate::specs::Productions::definition))]
fn read_definition(
    alloc: Global,
    tokens: &mut Tokens<'_>,
    result_type: CTy,
    name: &[u8],
    params: List<CVar>,
) -> Result<CItem, Stop>
    ensures read { TookAs item_of (definition result_type name.now params tokens.old) result tokens.new }
    ensures spelled { IfOk result (λ i. YieldsDefinition result_type name.now params tokens.old i tokens.new) }
{
    let name = Text::from_bytes(alloc, name)?;
    let locals = read_locals(alloc, tokens)?;
    let Layout { body, stmts } = read_body(alloc, tokens)?;
    Ok(CItem::Defined(CFun {
        result: result_type,
        name,
        params,
        locals,
        body,
        stmts,
    }))
}

#[tactic(auto, unfolding(crate::specs::Productions::without_params))]
fn read_without_params(
    alloc: Global,
    tokens: &mut Tokens<'_>,
    result_type: CTy,
    name: &[u8],
) -> Result<CItem, Stop>
    ensures read { TookAs item_of (without_params result_type name.now tokens.old) result tokens.new }
    ensures spelled { IfOk result (λ i. YieldsRest result_type name.now (Word (codes "void") ∷ Mark 41 ∷ tokens.old) i tokens.new) }
{
    if tokens.take_mark(b';') {
        let name = Text::from_bytes(alloc, name)?;
        return Ok(CItem::Declared(result_type, name, List::new(alloc)));
    }
    skip(tokens, b'{')?;
    read_definition(alloc, tokens, result_type, name, List::new(alloc))
}

#[tactic(auto, unfolding(crate::specs::Productions::with_types))]
fn read_with_types(
    alloc: Global,
    tokens: &mut Tokens<'_>,
    result_type: CTy,
    name: &[u8],
    first: CTy,
) -> Result<CItem, Stop>
    ensures read { TookAs item_of (with_types result_type name.now first tokens.old) result tokens.new }
    ensures spelled { IfOk result (λ i. YieldsRest result_type name.now (Word (type_text first) ∷ tokens.old) i tokens.new) }
{
    let name = Text::from_bytes(alloc, name)?;
    let types = read_types(alloc, tokens, first)?;
    skip(tokens, b';').and(Ok(CItem::Declared(result_type, name, types)))
}

#[tactic(auto, unfolding(crate::specs::Productions::with_names))]
fn read_with_names(
    alloc: Global,
    tokens: &mut Tokens<'_>,
    result_type: CTy,
    name: &[u8],
    first: CTy,
) -> Result<CItem, Stop>
    ensures read { TookAs item_of (with_names result_type name.now first tokens.old) result tokens.new }
    ensures spelled { IfOk result (λ i. YieldsRest result_type name.now (Word (type_text first) ∷ tokens.old) i tokens.new) }
{
    let first_name = local_name(alloc, tokens)?;
    let params = read_params(
        alloc,
        tokens,
        CVar {
            ty: first,
            name: first_name,
        },
    )?;
    skip(tokens, b'{')?;
    read_definition(alloc, tokens, result_type, name, params)
}

#[tactic(auto, unfolding(crate::specs::Productions::with_params))]
fn read_with_params(
    alloc: Global,
    tokens: &mut Tokens<'_>,
    result_type: CTy,
    name: &[u8],
) -> Result<CItem, Stop>
    ensures read { TookAs item_of (with_params result_type name.now tokens.old) result tokens.new }
    ensures spelled { IfOk result (λ i. YieldsRest result_type name.now tokens.old i tokens.new) }
{
    let first = type_word(tokens)?;
    if is_word_next(tokens) {
        return read_with_names(alloc, tokens, result_type, name, first);
    }
    read_with_types(alloc, tokens, result_type, name, first)
}

#[tactic(auto, unfolding(crate::specs::Productions::item_rest))]
fn read_item_rest(
    alloc: Global,
    tokens: &mut Tokens<'_>,
    result_type: CTy,
    name: &[u8],
) -> Result<CItem, Stop>
    ensures read { TookAs item_of (item_rest result_type name.now tokens.old) result tokens.new }
    ensures spelled { IfOk result (λ i. YieldsRest result_type name.now tokens.old i tokens.new) }
{
    if is_void_next(tokens) {
        let _ = word(tokens)?;
        skip(tokens, b')')?;
        return read_without_params(alloc, tokens, result_type, name);
    }
    read_with_params(alloc, tokens, result_type, name)
}

#[tactic(auto, unfolding(crate::specs::Productions::external_rest))]
fn read_external(alloc: Global, tokens: &mut Tokens<'_>) -> Result<CItem, Stop>
    ensures read { TookAs item_of (external_rest tokens.old) result tokens.new }
    ensures spelled { IfOk result (λ i. YieldsItem (Word (codes "extern") ∷ tokens.old) i tokens.new) }
{
    let ty = type_word(tokens)?;
    let name = global_name(alloc, tokens)?;
    skip(tokens, b';').and(Ok(CItem::Extern(CVar { ty, name })))
}

#[tactic(auto, unfolding(crate::specs::Productions::item_named))]
fn read_item_named(
    alloc: Global,
    tokens: &mut Tokens<'_>,
    ty: CTy,
    word: &CWord<'_>,
) -> Result<CItem, Stop>
    ensures read { TookAs item_of (item_named ty word.now tokens.old) result tokens.new }
    ensures spelled { IfOk result (λ i. YieldsNamed ty word.now tokens.old i tokens.new) }
{
    if names_global(word) {
        skip(tokens, b';')?;
        let name = Text::from_bytes(alloc, word.bytes())?;
        return Ok(CItem::Global(CVar { ty, name }));
    }
    if !names_function(word) {
        return Err(Stop::Wrong);
    }
    skip(tokens, b'(')?;
    read_item_rest(alloc, tokens, ty, word.bytes())
}

#[tactic(auto, unfolding(crate::specs::Productions::typed_item))]
fn read_typed_item(alloc: Global, tokens: &mut Tokens<'_>) -> Result<CItem, Stop>
    ensures read { TookAs item_of (typed_item tokens.old) result tokens.new }
    ensures spelled { IfOk result (λ x. YieldsItem tokens.old x tokens.new) }
{
    let ty = type_word(tokens)?;
    let word = word(tokens)?;
    read_item_named(alloc, tokens, ty, &word)
}

#[tactic(auto, unfolding(crate::specs::Productions::item))]
fn read_item(alloc: Global, tokens: &mut Tokens<'_>) -> Result<CItem, Stop>
    ensures read { TookAs item_of (item tokens.old) result tokens.new }
    ensures spelled { IfOk result (λ x. YieldsItem tokens.old x tokens.new) }
{
    if is_extern_next(tokens) {
        skip_extern(tokens)?;
        return read_external(alloc, tokens);
    }
    read_typed_item(alloc, tokens)
}

/// All items.
pub fn read_items(alloc: Global, tokens: &mut Tokens<'_>) -> Result<List<CItem>, Stop>
    ensures read { TookAs items_of (parsed tokens.old) result tokens.new }
    ensures spelled { IfOk result (λ x. YieldsItems tokens.old x []) }
{
    let mut items = List::new(alloc);
    while !tokens.is_empty() {
        let item = read_item(alloc, tokens)?;
        items.push(item)?;
    }
    Ok(items)
}

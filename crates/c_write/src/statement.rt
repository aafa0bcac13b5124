// Statements and what stands in them.
ghost use Rattle.std.specs.Prelude.{◌∷◌, OnOk, IsTrue, codes};
ghost use Rattle.scheme_data.specs.Decimal.{number_text};
ghost use Rattle.scheme_data.specs.Fixnum.{IsFixnum};
ghost use Rattle.c_tree.specs.Lexical.{Word, Mark};
ghost use Rattle.c_tree.specs.declared.pieces.Piece.TheVariants.{If, Loop, Begin, Goto, Catch, Protect};
ghost use Rattle.c_tree.specs.Names.{is_entry_name, is_label_name, is_target_name, is_local_name, is_variable_name, is_symbol_name};
ghost use Rattle.c_tree.specs.Operations.{op_text};
ghost use Rattle.c_tree.specs.Pieces.{opening};
ghost use Rattle.c_tree.specs.Spelling.{atom_text, argument_tokens_of, more_arguments, argument_tokens, callee_text, call_tokens, expr_tokens, piece_tokens, NamedAtom, NamedArgument, NamedArguments, NamedCallee, NamedCall, NamedExpr, NamedPiece};
ghost use Rattle.c_write.specs.Adds.{Adds, anything, apart};

use crate::put::{
    begin_block, open_block, put_comma, put_end, put_mark, put_name, put_space, put_word,
};
use crate::quote::put_string;
use c_tree::{CArg, CAtom, CCall, CExpr, CStmt, Callee, Op};
use scheme_data::{OutOfMemory, Text, push_number};

fn put_number(out: &mut Text, n: i64) -> Result<(), OutOfMemory>
    requires { IsFixnum n }
    ensures { OnOk result (Adds anything apart out.old out.new (λ ts. Word (number_text n) ∷ ts)) }
{
    push_number(out, n)?;
    Ok(())
}

fn put_variable(out: &mut Text, name: &Text) -> Result<(), OutOfMemory>
    requires { IsTrue (is_variable_name name.now) }
    ensures { OnOk result (Adds anything apart out.old out.new (λ ts. Word name.now ∷ ts)) }
{
    put_name(out, name)
}

fn put_symbol(out: &mut Text, name: &Text) -> Result<(), OutOfMemory>
    requires { IsTrue (is_symbol_name name.now) }
    ensures { OnOk result (Adds anything apart out.old out.new (λ ts. Word name.now ∷ ts)) }
{
    put_name(out, name)
}

fn put_atom(out: &mut Text, atom: &CAtom) -> Result<(), OutOfMemory>
    requires { NamedAtom atom.now }
    ensures { OnOk result (Adds anything apart out.old out.new (λ ts. Word (atom_text atom.now) ∷ ts)) }
{
    match atom {
        CAtom::Int(n) => put_number(out, *n),
        CAtom::Name(name) => put_variable(out, name),
        CAtom::Sym(name) => put_symbol(out, name),
        CAtom::False => put_word(out, b"BGL_FALSE"),
        CAtom::True => put_word(out, b"BGL_TRUE"),
        CAtom::Nil => put_word(out, b"BGL_NIL"),
        CAtom::Unspec => put_word(out, b"BGL_UNSPEC"),
        CAtom::Eof => put_word(out, b"BGL_EOF"),
    }
}

// The address of an entry.
fn put_entry(out: &mut Text, name: &Text) -> Result<(), OutOfMemory>
    requires { IsTrue (is_entry_name name.now) }
    ensures { OnOk result (Adds anything apart out.old out.new (λ ts. Mark 38 ∷ Word name.now ∷ ts)) }
{
    put_mark(out, b'&')?;
    put_name(out, name)?;
    Ok(())
}

fn put_argument(out: &mut Text, argument: &CArg) -> Result<(), OutOfMemory>
    requires { NamedArgument argument.now }
    ensures { OnOk result (Adds anything apart out.old out.new (argument_tokens_of argument.now)) }
{
    match argument {
        CArg::Atom(atom) => put_atom(out, atom),
        CArg::Str(text) => put_string(out, text.as_bytes()),
        CArg::Entry(name) => put_entry(out, name),
    }
}

fn put_more_arguments(out: &mut Text, arguments: &[CArg]) -> Result<(), OutOfMemory>
    requires { NamedArguments arguments.now }
    ensures { OnOk result (Adds apart apart out.old out.new (more_arguments arguments.now)) }
{
    for argument in arguments {
        put_comma(out)?;
        put_argument(out, argument)?;
    }
    Ok(())
}

fn put_arguments(out: &mut Text, arguments: &[CArg]) -> Result<(), OutOfMemory>
    requires { NamedArguments arguments.now }
    ensures { OnOk result (Adds anything apart out.old out.new (argument_tokens arguments.now)) }
{
    if arguments.is_empty() {
        return Ok(());
    }
    put_argument(out, &arguments[0])?;
    put_more_arguments(out, &arguments[1..])?;
    Ok(())
}

fn put_operation(out: &mut Text, op: Op) -> Result<(), OutOfMemory>
    ensures { OnOk result (Adds anything apart out.old out.new (λ ts. Word (op_text op) ∷ ts)) }
{
    op.push_name(out)?;
    Ok(())
}

fn put_callee(out: &mut Text, callee: &Callee) -> Result<(), OutOfMemory>
    requires { NamedCallee callee.now }
    ensures { OnOk result (Adds anything apart out.old out.new (λ ts. Word (callee_text callee.now) ∷ ts)) }
{
    match callee {
        Callee::Fun(name) => put_name(out, name),
        Callee::Op(op) => put_operation(out, *op),
    }
}

fn put_call(out: &mut Text, call: &CCall) -> Result<(), OutOfMemory>
    requires { NamedCall call.now }
    ensures { OnOk result (Adds anything apart out.old out.new (call_tokens call.now)) }
{
    put_callee(out, &call.callee)?;
    put_mark(out, b'(')?;
    put_arguments(out, call.args.as_slice())?;
    put_mark(out, b')')?;
    Ok(())
}

fn put_expr(out: &mut Text, expr: &CExpr) -> Result<(), OutOfMemory>
    requires { NamedExpr expr.now }
    ensures { OnOk result (Adds anything apart out.old out.new (expr_tokens expr.now)) }
{
    match expr {
        CExpr::Atom(atom) => put_atom(out, atom),
        CExpr::Call(call) => put_call(out, call),
    }
}

fn put_assignment(out: &mut Text, name: &Text, expr: &CExpr) -> Result<(), OutOfMemory>
    requires { IsTrue (is_variable_name name.now) × NamedExpr expr.now }
    ensures { OnOk result (Adds anything anything out.old out.new
        (λ ts. Word name.now ∷ Mark 61 ∷ expr_tokens expr.now (Mark 59 ∷ ts))) }
{
    put_variable(out, name)?;
    put_space(out)?;
    put_mark(out, b'=')?;
    put_space(out)?;
    put_expr(out, expr)?;
    put_end(out)?;
    Ok(())
}

fn put_call_statement(out: &mut Text, call: &CCall) -> Result<(), OutOfMemory>
    requires { NamedCall call.now }
    ensures { OnOk result (Adds anything anything out.old out.new (λ ts. call_tokens call.now (Mark 59 ∷ ts))) }
{
    put_call(out, call)?;
    put_end(out)?;
    Ok(())
}

fn put_return(out: &mut Text, expr: &CExpr) -> Result<(), OutOfMemory>
    requires { NamedExpr expr.now }
    ensures { OnOk result (Adds anything anything out.old out.new
        (λ ts. Word (codes "return") ∷ expr_tokens expr.now (Mark 59 ∷ ts))) }
{
    put_word(out, b"return")?;
    put_space(out)?;
    put_expr(out, expr)?;
    put_end(out)?;
    Ok(())
}

// `if`, the condition, and where its block begins.
fn put_if(out: &mut Text, condition: &CExpr) -> Result<(), OutOfMemory>
    requires { NamedExpr condition.now }
    ensures { OnOk result (Adds anything anything out.old out.new (piece_tokens (If condition.now))) }
{
    put_word(out, b"if")?;
    put_space(out)?;
    put_mark(out, b'(')?;
    put_expr(out, condition)?;
    put_mark(out, b')')?;
    open_block(out)?;
    Ok(())
}

// `for (;;) {` and a line end.
fn put_for(out: &mut Text) -> Result<(), OutOfMemory>
    ensures { OnOk result (Adds anything anything out.old out.new
        (λ ts. Word (codes "for") ∷ Mark 40 ∷ Mark 59 ∷ Mark 59 ∷ Mark 41 ∷ Mark 123 ∷ ts)) }
{
    put_word(out, b"for")?;
    put_space(out)?;
    put_mark(out, b'(')?;
    put_mark(out, b';')?;
    put_mark(out, b';')?;
    put_mark(out, b')')?;
    open_block(out)?;
    Ok(())
}

// The label, and where its block begins.
fn put_loop(out: &mut Text, label: &Text) -> Result<(), OutOfMemory>
    requires { IsTrue (is_label_name label.now) }
    ensures { OnOk result (Adds anything anything out.old out.new (piece_tokens (Loop label.now))) }
{
    put_name(out, label)?;
    put_mark(out, b':')?;
    put_space(out)?;
    put_for(out)?;
    Ok(())
}

fn put_goto(out: &mut Text, label: &Text) -> Result<(), OutOfMemory>
    requires { IsTrue (is_target_name label.now) }
    ensures { OnOk result (Adds anything anything out.old out.new (piece_tokens (Goto label.now))) }
{
    put_word(out, b"goto")?;
    put_space(out)?;
    put_name(out, label)?;
    put_end(out)?;
    Ok(())
}

// `BGL_CATCH`, the locals for the exit and for what an escape carries, and where the block begins.
fn put_catch(out: &mut Text, exit: &Text, carried: &Text) -> Result<(), OutOfMemory>
    requires { IsTrue (is_local_name exit.now) × IsTrue (is_local_name carried.now) }
    ensures { OnOk result (Adds anything anything out.old out.new (piece_tokens (Catch exit.now carried.now))) }
{
    put_word(out, b"BGL_CATCH")?;
    put_mark(out, b'(')?;
    put_name(out, exit)?;
    put_comma(out)?;
    put_name(out, carried)?;
    put_mark(out, b')')?;
    open_block(out)?;
    Ok(())
}

fn put_protect(out: &mut Text) -> Result<(), OutOfMemory>
    ensures { OnOk result (Adds anything anything out.old out.new (piece_tokens Protect)) }
{
    put_word(out, b"BGL_PROTECT")?;
    open_block(out)?;
    Ok(())
}

/// A line of the statement, without what is in its blocks.
pub fn put_statement(out: &mut Text, statement: &CStmt) -> Result<(), OutOfMemory>
    requires { NamedPiece (opening statement.now) }
    ensures { OnOk result (Adds anything anything out.old out.new (piece_tokens (opening statement.now))) }
{
    match statement {
        CStmt::Assign(name, expr) => put_assignment(out, name, expr),
        CStmt::Call(call) => put_call_statement(out, call),
        CStmt::Return(expr) => put_return(out, expr),
        CStmt::If(condition, _, _) => put_if(out, condition),
        CStmt::Loop(label, _) => put_loop(out, label),
        CStmt::Ended(_, _) => begin_block(out),
        CStmt::Goto(label) => put_goto(out, label),
        CStmt::Catch(exit, carried, _) => put_catch(out, exit, carried),
        CStmt::Protect(_, _) => put_protect(out),
    }
}

//! The text of expressions.
ghost use Rattle.std.specs.Prelude.{◌≡◌, ◌++◌, OnOk, IfOk, codes};
ghost use Rattle.std.specs.Fmt.{signed_decimal};
ghost use Rattle.f77_ast.specs.Plain.{expr_tree, expr_trees};
ghost use Rattle.f77_ast.specs.Hidden.{without_last};
ghost use Rattle.f77_printer.specs.ExprText.{expr_text, exprs_text, items_text, log_text, doubled};

use f77_ast::Expr;
use fx_lists::{List, Text};
use std::alloc::{AllocError as Memory, Global};

fn log_bytes(b: bool) -> &'static [u8]
    ensures { result.now ≡ log_text b }
{
    if b { b".TRUE." } else { b".FALSE." }
}

fn write_int(alloc: Global, out: &mut Text, n: i32) -> Result<(), Memory>
    ensures { OnOk result (out.new ≡ out.old ++ signed_decimal n) }
{
    let text = format!(in alloc; "{n}")?;
    out.append(text.as_bytes())
}

/// Appends the characters of a character constant, each apostrophe twice, without the apostrophes that enclose it.
#[tactic(auto, using(crate::proofs::TextLemmas::char_steps))]
pub fn write_chars(out: &mut Text, text: &Text) -> Result<(), Memory>
    ensures { OnOk result (out.new ≡ out.old ++ doubled text.now) }
{
    for c in text.as_slice() {
        if *c == b'\'' {
            out.push(b'\'')?;
        }
        out.push(*c)?;
    }
    Ok(())
}

/// Appends the text of an expression. No parentheses are added to those of the tree.
#[cycle(write)]
#[tactic(auto, using(f77_ast::proofs::Plainly::expr_appends))]
pub fn write_expr(alloc: Global, out: &mut Text, e: &Expr) -> Result<(), Memory>
    ensures { OnOk result (out.new ≡ out.old ++ expr_text (expr_tree e.now)) }
{
    match e {
        Expr::Int(n) => write_int(alloc, out, *n),
        Expr::Log(b) => out.append(log_bytes(*b)),
        Expr::Name(n) => out.append(n.as_slice()),
        Expr::Element(f, es) => {
            out.append(f.as_slice())?;
            out.append(b"(")?;
            write_row(alloc, out, es.as_slice())?;
            out.append(b")")
        }
        Expr::Paren(e) => {
            out.append(b"(")?;
            write_expr(alloc, out, e)?;
            out.append(b")")
        }
        Expr::Unary(op, e) => {
            out.append(op.word())?;
            write_expr(alloc, out, e)
        }
        Expr::Binary(op, a, b) => {
            write_expr(alloc, out, a)?;
            out.append(op.word())?;
            write_expr(alloc, out, b)
        }
        Expr::Chars(c) => {
            out.append(b"'")?;
            write_chars(out, c)?;
            out.append(b"'")
        }
    }
}

/// Appends the texts of expressions, joined by commas.
#[cycle(write)]
#[tactic(auto, using(f77_ast::proofs::Plainly::expr_lists))]
fn write_row(alloc: Global, out: &mut Text, es: &[Expr]) -> Result<(), Memory>
    ensures { OnOk result (out.new ≡ out.old ++ exprs_text (expr_trees es.now)) }
{
    let mut is_first = true;
    for e in es {
        if !is_first {
            out.append(b",")?;
        }
        is_first = false;
        write_expr(alloc, out, e)?;
    }
    Ok(())
}

/// Appends the texts of expressions, joined by commas.
pub fn write_exprs(alloc: Global, out: &mut Text, es: &List<Expr>) -> Result<(), Memory>
    ensures { OnOk result (out.new ≡ out.old ++ exprs_text (expr_trees es.now)) }
{
    write_row(alloc, out, es.as_slice())
}

/// Appends the texts of expressions but the last, joined by commas.
#[tactic(auto, using(crate::proofs::FormLemmas::without_last_taken))]
pub fn write_but_last(alloc: Global, out: &mut Text, es: &List<Expr>) -> Result<(), Memory>
    ensures { OnOk result (out.new ≡ out.old ++ exprs_text (without_last (expr_trees es.now))) }
{
    let list = es.as_slice();
    write_row(alloc, out, &list[..list.len().saturating_sub(1)])
}

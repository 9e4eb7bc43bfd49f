//! The directive of a parallel loop.
ghost use Rattle.std.specs.Prelude.{◌≡◌, ◌++◌, map, IfOk, codes};
ghost use Rattle.system_text.specs.SystemText.{name_at, joined};
ghost use Rattle.result_lines.specs.MarkText.{private_clause, directive_text as directive_text_is, directive_lines as directive_lines_is};
ghost use Rattle.result_lines.specs.ReductionText.{op_word as op_word_is, reduction_clause, reduction_clauses, reduction_text as reduction_text_is};

use crate::reduction::{Part, ReduceOp};
use f77_ast::Variable;
use fx_lists::{List, Text};
use region_sets::put_variable;
use std::alloc::{AllocError as Memory, Global};

/// How many bytes a line has from column 7 to 72.
const WIDTH: usize = 66;

#[tactic(auto, using(std::proofs::Common::append_assoc))]
fn put_names(out: &mut Text, names: &[Text], numbers: &[u32]) -> Result<(), Memory>
    ensures { IfOk result (λ _. out.new ≡ out.old ++ joined (codes ",") (map (name_at names.now) numbers.now)) }
{
    let mut any = false;
    for number in numbers {
        if any {
            out.append(b",")?;
        }
        put_variable(out, names, &Variable::Own(*number))?;
        any = true;
    }
    Ok(())
}

#[tactic(auto, using(std::proofs::Common::append_assoc))]
fn put_private(out: &mut Text, names: &[Text], numbers: &[u32]) -> Result<(), Memory>
    ensures { IfOk result (λ _. out.new ≡ out.old ++ private_clause names.now numbers.now) }
{
    if numbers.is_empty() {
        return Ok(());
    }
    out.append(b" PRIVATE(")?;
    put_names(out, names, numbers)?;
    out.append(b")")
}

/// The text of the directive from column 7 on; the variables with these numbers are private.
pub fn directive_text(alloc: Global, names: &[Text], numbers: &[u32]) -> Result<Text, Memory>
    ensures { IfOk result (λ t. t ≡ directive_text_is names.now numbers.now) }
{
    let mut text = Text::from_bytes(alloc, b"PARALLEL DO")?;
    put_private(&mut text, names, numbers)?;
    Ok(text)
}

/// The word of an operator in a REDUCTION clause.
fn op_word(op: ReduceOp) -> &'static [u8]
    ensures { result.now ≡ op_word_is op }
{
    match op {
        ReduceOp::Sum => b"+",
        ReduceOp::Max => b"MAX",
        ReduceOp::Min => b"MIN",
        ReduceOp::And => b".AND.",
        ReduceOp::Or => b".OR.",
    }
}

fn put_reduction(out: &mut Text, names: &[Text], part: &Part) -> Result<(), Memory>
    ensures { IfOk result (λ _. out.new ≡ out.old ++ reduction_clause names.now part.now) }
{
    out.append(b" REDUCTION(")?;
    out.append(op_word(part.op))?;
    out.append(b":")?;
    put_variable(out, names, &Variable::Own(part.cell))?;
    out.append(b")")
}

#[tactic(auto, using(crate::proofs::Steps::lines))]
fn put_reductions(out: &mut Text, names: &[Text], parts: &[Part]) -> Result<(), Memory>
    ensures { IfOk result (λ _. out.new ≡ out.old ++ reduction_clauses names.now parts.now) }
{
    for part in parts {
        put_reduction(out, names, part)?;
    }
    Ok(())
}

/// The text of the directive of a loop with these reduction variables: the clauses come after PRIVATE.
pub fn reduction_text(
    alloc: Global,
    names: &[Text],
    numbers: &[u32],
    parts: &[Part],
) -> Result<Text, Memory>
    ensures { IfOk result (λ t. t ≡ reduction_text_is names.now numbers.now parts.now) }
{
    let mut text = directive_text(alloc, names, numbers)?;
    put_reductions(&mut text, names, parts)?;
    Ok(text)
}

/// The lines of a directive: `C$OMP` in columns 1 to 5, the text in columns 7 to 72, and `&` in column 6 of each line but the first.
#[tactic(auto, using(std::proofs::Common::append_assoc))]
pub fn directive_lines(alloc: Global, text: &[u8]) -> Result<List<Text>, Memory>
    ensures { IfOk result (λ lines. lines ≡ directive_lines_is text.now) }
{
    let mut lines = List::new(alloc);
    let mut line = Text::from_bytes(alloc, b"C$OMP ")?;
    let mut used = 0;
    let mut rest = text;
    while let [byte, more @ ..] = rest {
        if used == WIDTH {
            lines.push(line)?;
            line = Text::from_bytes(alloc, b"C$OMP&")?;
            used = 0;
        }
        line.push(*byte)?;
        used += 1;
        rest = more;
    }
    lines.push(line)?;
    Ok(lines)
}

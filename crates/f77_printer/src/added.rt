//! Lines that are added before the parts of a module.
ghost use Rattle.std.specs.Prelude.{◌≡◌, ◌++◌, ◌||◌, nat_eq, OnOk, IfOk, codes};
ghost use Rattle.f77_ast.specs.declared.places.Part.TheVariants.{Stmt};
ghost use Rattle.f77_printer.specs.AddedText.{part_of, added_text};
ghost use Rattle.f77_printer.specs.Here.{here_part};
ghost use Rattle.f77_printer.specs.PageText.{is_part};
ghost use Rattle.f77_printer.specs.Lines.{lines_of, other_text, HasMore};

use crate::here::{Here, stands_at};
use f77_ast::{Part, StmtId};
use fx_lists::{List, Text};
use std::alloc::{AllocError as Memory, Global};
use std::collections::HashMap;

/// A line, without LF, to write before an executable statement, by its number from 1, or before the first part of the module,
/// by 0.
#[derive(PartialEq, Eq, Drop)]
pub struct Added {
    pub before: StmtId,
    pub line: Text,
}

/// The added lines, each ended by LF: the first part of the module, the lines before it, and the lines before other statements
/// by their numbers.
#[derive(Drop)]
pub struct Lines {
    pub first: Part,
    pub at_first: Text,
    pub others: HashMap<u32, Text>,
}

/// The lines that are added before a statement that is not the first part; no bytes for other parts.
pub fn other_lines(others: &HashMap<u32, Text>, here: Here) -> &[u8]
    ensures { result.now ≡ other_text others.now (here_part here) }
{
    match here {
        Here::Stmt(id) => match others.get(&id) {
            None => b"",
            Some(text) => text.as_slice(),
        },
        Here::Title
        | Here::Decl(_)
        | Here::ElseIf(..)
        | Here::Else(_)
        | Here::Close(_)
        | Here::End => b"",
    }
}

/// The lines that are added before a part, also where it is the first; no bytes where none are.
#[tactic(auto, unfolding(crate::specs::Lines::lines_of))]
pub fn lines_at(lines: &Lines, here: Here) -> &[u8]
    ensures { result.now ≡ lines_of lines.now (here_part here) }
{
    if stands_at(here, lines.first) {
        return lines.at_first.as_slice();
    }
    other_lines(&lines.others, here)
}

/// A line more for a statement that is not the first part.
fn add_other(
    alloc: Global,
    others: &mut HashMap<u32, Text>,
    id: StmtId,
    line: &Text,
) -> Result<(), Memory>
    ensures { OnOk result (HasMore (Stmt id) line.now (other_text others.old) (other_text others.new)) }
{
    let mut text = others.remove(&id).unwrap_or(Text::new(alloc));
    text.append(line.as_slice())?;
    text.push(b'\n')?;
    others.insert(id, text)?;
    Ok(())
}

/// A line more for the first part.
fn add_first(text: &mut Text, line: &Text) -> Result<(), Memory>
    ensures { OnOk result (text.new ≡ text.old ++ line.now ++ codes "\n") }
{
    text.append(line.as_slice())?;
    text.push(b'\n')
}

/// Whether a line comes before the first part.
fn is_for_first(before: StmtId, first: Part) -> bool
    ensures { result ≡ (nat_eq before 0 || is_part (Stmt before) first) }
{
    before == 0 || stands_at(Here::Stmt(before), first)
}

/// A line more, at the part that it comes before.
fn add(alloc: Global, lines: &mut Lines, added: &Added) -> Result<(), Memory>
    ensures more { OnOk result
        (HasMore (part_of lines.old.first added.now) added.now.line (lines_of lines.old) (lines_of lines.new)) }
    ensures first { OnOk result (lines.new.first ≡ lines.old.first) }
{
    if is_for_first(added.before, lines.first) {
        add_first(&mut lines.at_first, &added.line)?;
        Ok(())
    } else {
        add_other(alloc, &mut lines.others, added.before, &added.line)?;
        Ok(())
    }
}

/// The added lines by the parts that they come before, in the order of the list; `first` is the first part of the module.
pub fn lines_by_part(alloc: Global, first: Part, added: &List<Added>) -> Result<Lines, Memory>
    ensures { IfOk result (λ l. lines_of l ≡ added_text first added.now) }
{
    let mut lines = Lines {
        first,
        at_first: Text::new(alloc),
        others: HashMap::new(alloc),
    };
    for a in added.as_slice() {
        add(alloc, &mut lines, a)?;
    }
    Ok(lines)
}

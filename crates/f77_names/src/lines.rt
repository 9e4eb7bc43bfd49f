//! The lines of the statements of a module.
ghost use Rattle.std.specs.Prelude.{◌≡◌, IfOk, OnOk, None};
ghost use Rattle.f77_names.specs.declared.lines.Sited.{Sited};
ghost use Rattle.f77_names.specs.Lines.{line_or, lines_of, only_at, or_own, with_spot};
ghost use Rattle.std.specs.HashMap.{get};
ghost use Rattle.f77_names.specs.Views.{line_in};

use crate::entry::keep_first;
use f77_ast::{Part, Spot};
use std::alloc::{AllocError as Memory, Global};
use std::collections::HashMap;
use std::hash::Hash;

/// What has a line of its own: PROGRAM, SUBROUTINE or FUNCTION; a specification, by its place from 0; an executable statement, by its number
/// from 1; an ELSE IF, by the number of its IF and its place among the parts, from 0.
#[derive(Clone, Copy, PartialEq, Eq)]
pub enum Sited {
    Title,
    Decl(u32),
    Statement(u32),
    ElseIf(u32, u32),
}

/// The first lines of the statements of a module, each found in constant time.
#[derive(Drop)]
pub struct LineTable {
    title: Option<u32>,
    decls: HashMap<u32, u32>,
    statements: HashMap<u32, u32>,
    else_ifs: HashMap<(u32, u32), u32>,
}

/// A line, unless there is one for the key.
fn keep_line<K: Eq + Hash + Drop>(
    lines: &mut HashMap<K, u32>,
    key: K,
    line: u32,
) -> Result<(), Memory>
    ensures { OnOk result ((k : K) → get K.eq lines.new k ≡ or_own (get K.eq lines.old k) (only_at (K.eq key k) line)) }
{
    if lines.contains_key(&key) {
        return Ok(());
    }
    lines.insert(key, line)?;
    Ok(())
}

impl LineTable {
    /// No lines. Takes no memory.
    #[tactic(auto, unfolding(crate::specs::Views::line_in))]
    fn new(alloc: Global) -> LineTable
        ensures { (s : Sited) → line_in result s ≡ None }
    {
        LineTable {
            title: None,
            decls: HashMap::new(alloc),
            statements: HashMap::new(alloc),
            else_ifs: HashMap::new(alloc),
        }
    }

    /// One spot more; of two of one part the first counts.
    #[tactic(auto, unfolding(crate::specs::Views::line_in))]
    fn add(&mut self, part: Part, line: u32) -> Result<(), Memory>
        ensures { OnOk result ((s : Sited) → line_in self.new s ≡ with_spot part line (line_in self.old) s) }
    {
        match part {
            Part::Title => {
                let _ = keep_first(&mut self.title, line);
                Ok(())
            }
            Part::Decl(n) => keep_line(&mut self.decls, n, line),
            Part::Stmt(n) => keep_line(&mut self.statements, n, line),
            Part::ElseIf(n, k) => keep_line(&mut self.else_ifs, (n, k), line),
            Part::Else(_) | Part::Close(_) | Part::End => Ok(()),
        }
    }

    /// The lines of these spots; of two of one part the first counts. ELSE, END IF, END DO and END have none.
    pub fn of(alloc: Global, spots: &[Spot]) -> Result<LineTable, Memory>
        ensures { IfOk result (λ t. line_in t ≡ lines_of spots.now) }
    {
        let mut lines = LineTable::new(alloc);
        for spot in spots {
            lines.add(spot.part, spot.first)?;
        }
        Ok(lines)
    }

    #[tactic(auto, unfolding(crate::specs::Views::line_in))]
    fn line(&self, what: Sited) -> Option<u32>
        ensures { result ≡ line_in self.now what }
    {
        match what {
            Sited::Title => self.title,
            Sited::Decl(n) => self.decls.get(&n).copied(),
            Sited::Statement(n) => self.statements.get(&n).copied(),
            Sited::ElseIf(n, k) => self.else_ifs.get(&(n, k)).copied(),
        }
    }

    /// The line of a statement, or `line` where none is known. Takes no memory.
    pub fn line_or(&self, what: Sited, line: u32) -> u32
        ensures { result ≡ line_or (line_in self.now) what line }
    {
        match self.line(what) {
            None => line,
            Some(own) => own,
        }
    }
}

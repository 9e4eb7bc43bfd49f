//! What each statement makes of its module.
ghost use Rattle.std.specs.Prelude.{◌≡◌, IfOk, map, [], true, false};
ghost use Rattle.f77_ast.specs.PlainStmt.{stmt_tree, arm_tree, maybe_tree};
ghost use Rattle.f77_ast.specs.PlainDecl.{decl_tree};
ghost use Rattle.f77_statements.specs.Phrases.{phrase_tree};
ghost use Rattle.f77_parser.specs.SoFar.{so_far, opening_tree, around_tree};
ghost use Rattle.f77_parser.specs.Statements.{statement_tree};
ghost use Rattle.f77_parser.specs.Building.{set_heading, program_heading, subroutine_heading, function_heading, add_specification, close_arm, part_of, next_block, next_part, divide_block, add_continue, close_if, close_do, close_module, add_phrase, add_statement};

use crate::numbers::place_of;
use crate::progress::{Around, Front, Heading, Opening, Progress, add_arm};
use crate::statement::Statement;
use f77_ast::{Arm, Decl, Expr, FunctionForm, Part, Stmt, StmtId, What};
use f77_statements::Phrase;
use fx_lists::{List, Text};
use std::alloc::{AllocError as Memory, Global};
use std::mem;

impl Progress {
    /// PROGRAM, SUBROUTINE or FUNCTION.
    fn set_heading(&mut self, front: Front, heading: Heading) -> Result<(), Memory>
        ensures { IfOk result (λ _. so_far self.new ≡ set_heading front.first front.comments heading (so_far self.old)) }
    {
        let Front {
            first,
            comments,
            ..
        } = front;
        self.heading = heading;
        self.add_spot(Part::Title, first, comments)
    }

    /// A specification.
    fn add_specification(&mut self, front: Front, decl: Decl) -> Result<(), Memory>
        ensures { IfOk result (λ _. so_far self.new ≡ add_specification front.first front.comments (decl_tree decl) (so_far self.old)) }
    {
        let Front {
            first,
            comments,
            ..
        } = front;
        let place = place_of(self.decls.len())?;
        self.decls.push(decl)?;
        self.add_spot(Part::Decl(place), first, comments)
    }

    /// ELSE IF with its test, or ELSE.
    fn divide_block(
        &mut self,
        alloc: Global,
        front: Front,
        test: Option<Expr>,
    ) -> Result<(), Memory>
        ensures { IfOk result (λ _. so_far self.new ≡ divide_block front.first front.comments (maybe_tree test) (so_far self.old)) }
    {
        let Front {
            first,
            comments,
            ..
        } = front;
        match self.around.pop() {
            None => Ok(()),
            Some(block) => {
                let list = mem::replace(&mut self.list, List::new(alloc));
                let (next, part) = next_part(alloc, block, list, test)?;
                self.add_around(alloc, next)?;
                self.add_spot(part, first, comments)
            }
        }
    }

    /// The CONTINUE that a label stands for.
    #[tactic(auto, using(crate::proofs::SoFarLemmas::continues))]
    fn add_continue(
        &mut self,
        alloc: Global,
        first: u32,
        label: u32,
        comments: List<Text>,
    ) -> Result<(), Memory>
        ensures { IfOk result (λ _. so_far self.new ≡ add_continue first label comments (so_far self.old)) }
    {
        let front = Front {
            first,
            label: Some(label),
            comments,
        };
        self.add_executable(front, What::Continue)?;
        self.end_loops(alloc, label)
    }

    fn close_if(&mut self, alloc: Global, front: Front) -> Result<(), Memory>
        ensures { IfOk result (λ _. so_far self.new ≡ close_if front.first front.label front.comments (so_far self.old)) }
    {
        let Front {
            first,
            label,
            comments,
        } = front;
        self.close_block(alloc, first, comments)?;
        match label {
            None => Ok(()),
            Some(label) => self.add_continue(alloc, first, label, List::new(alloc)),
        }
    }

    fn close_do(&mut self, alloc: Global, front: Front) -> Result<(), Memory>
        ensures { IfOk result (λ _. so_far self.new ≡ close_do front.first front.label front.comments (so_far self.old)) }
    {
        let Front {
            first,
            label,
            comments,
        } = front;
        match label {
            None => self.close_block(alloc, first, comments),
            Some(label) => {
                self.add_continue(alloc, first, label, comments)?;
                self.close_block(alloc, first, List::new(alloc))
            }
        }
    }

    fn close_module(&mut self, alloc: Global, front: Front) -> Result<(), Memory>
        ensures { IfOk result (λ _. so_far self.new ≡ close_module front.first front.label front.comments (so_far self.old)) }
    {
        let Front {
            first,
            label,
            comments,
        } = front;
        match label {
            None => self.add_spot(Part::End, first, comments),
            Some(label) => {
                self.add_continue(alloc, first, label, comments)?;
                self.add_spot(Part::End, first, List::new(alloc))
            }
        }
    }

    /// One statement more, by what it says.
    fn add_phrase(&mut self, alloc: Global, front: Front, phrase: Phrase) -> Result<(), Memory>
        ensures { IfOk result (λ _. so_far self.new ≡ add_phrase front.first front.label front.comments (phrase_tree phrase) (so_far self.old)) }
    {
        let label = front.label;
        match phrase {
            Phrase::Program(name) => self.set_heading(front, program_heading(alloc, name)),
            Phrase::Subroutine(name, dummies) => {
                self.set_heading(front, subroutine_heading(name, dummies))
            }
            Phrase::Function(form, name, dummies) => {
                self.set_heading(front, function_heading(form, name, dummies)?)
            }
            Phrase::Decl(decl) => self.add_specification(front, decl),
            Phrase::Simple(what) => {
                self.add_executable(front, what)?;
                self.end_loops_at(alloc, label)
            }
            Phrase::LogicalIf(test, what) => {
                self.add_logical_if(alloc, front, test, what)?;
                self.end_loops_at(alloc, label)
            }
            Phrase::BlockIf(test) => {
                let opening = Opening::Branches(List::new(alloc), Some(test));
                self.open_block(alloc, front, opening)
            }
            Phrase::ElseIf(test) => self.divide_block(alloc, front, Some(test)),
            Phrase::Else => self.divide_block(alloc, front, None),
            Phrase::EndIf => self.close_if(alloc, front),
            Phrase::Do(head) => self.open_block(alloc, front, Opening::Loop(head)),
            Phrase::While(last, test) => {
                self.add_while()?;
                self.open_block(alloc, front, Opening::While(last, test))
            }
            Phrase::EndDo => self.close_do(alloc, front),
            Phrase::End => self.close_module(alloc, front),
        }
    }

    /// Adds the next statement to the module. Err also where there are 2^32 - 1 executable statements, specifications or parts.
    pub fn add_statement(&mut self, alloc: Global, statement: Statement) -> Result<(), Memory>
        ensures { IfOk result (λ _. so_far self.new ≡ add_statement (statement_tree statement) (so_far self.old)) }
    {
        let Statement {
            first,
            label,
            deep: _,
            comments,
            phrase,
        } = statement;
        let front = Front {
            first,
            label,
            comments,
        };
        self.add_phrase(alloc, front, phrase)
    }
}

/// The parts of a block IF, this being the open list.
fn close_arm(alloc: Global, opening: Opening, list: List<Stmt>) -> Result<List<Arm>, Memory>
    ensures { IfOk result (λ arms. map arm_tree arms ≡ close_arm (opening_tree opening) (map stmt_tree list)) }
{
    match opening {
        Opening::Loop(_) | Opening::While(..) => Ok(List::new(alloc)),
        Opening::Branches(arms, test) => match test {
            None => Ok(arms),
            Some(test) => add_arm(arms, test, list),
        },
    }
}

fn part_of(id: StmtId, place: u32, test: &Option<Expr>) -> Part
    ensures { result ≡ part_of id place (maybe_tree test.now) }
{
    match test {
        None => Part::Else(id),
        Some(_) => Part::ElseIf(id, place),
    }
}

/// A block that goes on with another list, and the part that begins it.
#[tactic(auto, using(crate::proofs::SoFarLemmas::parts))]
fn next_part(
    alloc: Global,
    block: Around,
    list: List<Stmt>,
    test: Option<Expr>,
) -> Result<(Around, Part), Memory>
    ensures block { IfOk result (λ next. around_tree next.0 ≡ next_block (around_tree block) (map stmt_tree list) (maybe_tree test)) }
    ensures part { IfOk result (λ next. next.1 ≡ next_part (around_tree block) (map stmt_tree list) (maybe_tree test)) }
{
    let Around {
        id,
        label,
        before,
        opening,
    } = block;
    let arms = close_arm(alloc, opening, list)?;
    let part = part_of(id, place_of(arms.len())?, &test);
    let next = Around {
        id,
        label,
        before,
        opening: Opening::Branches(arms, test),
    };
    Ok((next, part))
}

fn program_heading(alloc: Global, name: Text) -> Heading
    ensures { result ≡ program_heading name }
{
    Heading {
        name,
        main: true,
        titled: true,
        dummies: List::new(alloc),
        function: None,
    }
}

fn subroutine_heading(name: Text, dummies: List<Text>) -> Heading
    ensures { result ≡ subroutine_heading name dummies }
{
    Heading {
        name,
        main: false,
        titled: false,
        dummies,
        function: None,
    }
}

/// The heading of a function, whose name is its last dummy.
fn function_heading(form: FunctionForm, name: Text, dummies: List<Text>) -> Result<Heading, Memory>
    ensures { IfOk result (λ h. h ≡ function_heading form name dummies) }
{
    let mut dummies = dummies;
    dummies.push(name.clone()?)?;
    Ok(Heading {
        name,
        main: false,
        titled: false,
        dummies,
        function: Some(form),
    })
}

//! The module that is built from the statements so far.
ghost use Rattle.std.specs.Prelude.{◌≡◌, ◌++◌, [], ◌∷◌, IfOk, map};
ghost use Rattle.f77_ast.specs.Trees.{stmt, logical_if, arm};
ghost use Rattle.f77_ast.specs.Plain.{expr_tree};
ghost use Rattle.f77_ast.specs.PlainStmt.{stmt_tree, what_tree, loop_tree, arm_tree, stmts_of};
ghost use Rattle.f77_statements.specs.Phrases.{do_tree};
ghost use Rattle.f77_parser.specs.SoFar.{so_far, opening_tree, around_tree, what_of, loop_of, add_spot, add_executable, add_logical_if, open_block, add_while, add_block, is_label, is_loop_to, end_loops, end_loops_at, close_block};

use crate::numbers::next;
use f77_ast::{Arm, Decl, Expr, FunctionForm, Loop, Part, Spot, Stmt, StmtId, What};
use f77_statements::DoHead;
use f77_structure::Stack;
use fx_lists::{List, Text};
use std::alloc::{AllocError as Memory, Global};
use std::mem;

/// The heading of a module, as in `Module`.
#[derive(Drop)]
pub struct Heading {
    pub name: Text,
    pub main: bool,
    pub titled: bool,
    pub dummies: List<Text>,
    pub function: Option<FunctionForm>,
}

/// What opened a block, and the parts of it before the open list.
#[derive(Drop)]
pub enum Opening {
    Loop(DoHead),
    /// A DO WHILE: the label of its last statement where it has one, and the test.
    While(Option<u32>, Expr),
    /// The parts of the block IF that are closed, and the test of the open one, None in its ELSE.
    Branches(List<Arm>, Option<Expr>),
}

/// An open block: the number and label of its statement, and the statements before it in its list.
#[derive(Drop)]
pub struct Around {
    pub id: StmtId,
    pub label: Option<u32>,
    pub before: List<Stmt>,
    pub opening: Opening,
}

/// The module that is built from the statements so far.
#[derive(Drop)]
pub struct Progress {
    pub heading: Heading,
    pub decls: List<Decl>,
    /// How many executable statements there were.
    pub count: u32,
    /// Those that are a DO WHILE, in the order of the text.
    pub whiles: List<StmtId>,
    /// The lines of the statements, in the order of the text.
    pub spots: List<Spot>,
    /// The statements of the innermost open block since its last part, or of the module where no block is open.
    pub list: List<Stmt>,
    /// The open blocks, the innermost first.
    pub around: Stack<Around>,
}

/// What precedes a statement: its first line, from 1, its label, and its comments.
#[derive(Drop)]
pub struct Front {
    pub first: u32,
    pub label: Option<u32>,
    pub comments: List<Text>,
}

impl Progress {
    /// Records the line of a part of the module.
    #[tactic(auto, unfolding(crate::specs::SoFar::add_spot))]
    pub fn add_spot(&mut self, part: Part, first: u32, comments: List<Text>) -> Result<(), Memory>
        ensures { IfOk result (λ _. so_far self.new ≡ add_spot part first comments (so_far self.old)) }
    {
        self.spots.push(Spot {
            part,
            first,
            comments,
        })
    }

    /// Adds the next executable statement to the open list.
    pub fn add_executable(&mut self, front: Front, what: What) -> Result<(), Memory>
        ensures { IfOk result (λ _. so_far self.new ≡ add_executable front.first front.label front.comments (what_tree what) (so_far self.old)) }
    {
        let Front {
            first,
            label,
            comments,
        } = front;
        let id = next(self.count)?;
        self.count = id;
        self.list.push(Stmt { id, label, what })?;
        self.add_spot(Part::Stmt(id), first, comments)
    }

    /// Adds a logical IF to the open list. The statement in it has the next number after that of the IF, and no label (ANSI
    /// X3.9-1978 §11.5).
    pub fn add_logical_if(
        &mut self,
        alloc: Global,
        front: Front,
        test: Expr,
        what: What,
    ) -> Result<(), Memory>
        ensures { IfOk result (λ _. so_far self.new ≡ add_logical_if front.first front.label front.comments (expr_tree test) (what_tree what) (so_far self.old)) }
    {
        let Front {
            first,
            label,
            comments,
        } = front;
        let id = next(self.count)?;
        let within = next(id)?;
        self.count = within;
        let inner = Stmt {
            id: within,
            label: None,
            what,
        };
        self.list.push(logical_if(alloc, id, label, test, inner)?)?;
        self.add_spot(Part::Stmt(id), first, comments)?;
        self.add_spot(Part::Stmt(within), first, List::new(alloc))
    }

    /// Opens a block with the next executable statement. The statements of the open list are kept as those before the block, and a
    /// new list is open.
    pub fn open_block(
        &mut self,
        alloc: Global,
        front: Front,
        opening: Opening,
    ) -> Result<(), Memory>
        ensures { IfOk result (λ _. so_far self.new ≡ open_block front.first front.label front.comments (opening_tree opening) (so_far self.old)) }
    {
        let Front {
            first,
            label,
            comments,
        } = front;
        let id = next(self.count)?;
        self.count = id;
        let before = mem::replace(&mut self.list, List::new(alloc));
        self.add_around(
            alloc,
            Around {
                id,
                label,
                before,
                opening,
            },
        )?;
        self.add_spot(Part::Stmt(id), first, comments)
    }

    /// Records that the next executable statement is a DO WHILE.
    #[tactic(auto, unfolding(crate::specs::SoFar::add_while))]
    pub fn add_while(&mut self) -> Result<(), Memory>
        ensures { IfOk result (λ _. so_far self.new ≡ add_while (so_far self.old)) }
    {
        let id = next(self.count)?;
        self.whiles.push(id)
    }

    /// Puts an open block inside the others, as the innermost.
    pub fn add_around(&mut self, alloc: Global, block: Around) -> Result<(), Memory>
        ensures { IfOk result (λ _. self.new ≡ record self.old { around = block ∷ self.old.around }) }
    {
        let around = mem::replace(&mut self.around, Stack::new(alloc));
        self.around = around.with_first(block)?;
        Ok(())
    }

    /// A block that was open stands behind what was before it in its list.
    #[tactic(auto, using(crate::proofs::SoFarLemmas::lists))]
    fn add_block(&mut self, alloc: Global, block: Around) -> Result<(), Memory>
        ensures { IfOk result (λ _. so_far self.new ≡ record (so_far self.old) { list = add_block (around_tree block) (map stmt_tree self.old.list) }) }
    {
        let Around {
            id,
            label,
            before,
            opening,
        } = block;
        let list = mem::replace(&mut self.list, before);
        let what = what_of(alloc, opening, list)?;
        self.list.push(Stmt { id, label, what })
    }

    /// Ends the innermost DOs and DO WHILEs as long as their last statement is to have this label (§11.10).
    pub fn end_loops(&mut self, alloc: Global, label: u32) -> Result<(), Memory>
        ensures { IfOk result (λ _. so_far self.new ≡ end_loops label (so_far self.old)) }
    {
        while let Some(block) = self.around.pop() {
            if !is_loop_to(&block.opening, label) {
                return self.add_around(alloc, block);
            }
            self.add_block(alloc, block)?;
        }
        Ok(())
    }

    /// Ends the innermost DOs as long as their last statement is to have the label; without a label nothing ends.
    pub fn end_loops_at(&mut self, alloc: Global, label: Option<u32>) -> Result<(), Memory>
        ensures { IfOk result (λ _. so_far self.new ≡ end_loops_at label (so_far self.old)) }
    {
        match label {
            None => Ok(()),
            Some(label) => self.end_loops(alloc, label),
        }
    }

    /// Ends the innermost block, where there is one, at an END IF or END DO on this line.
    pub fn close_block(
        &mut self,
        alloc: Global,
        first: u32,
        comments: List<Text>,
    ) -> Result<(), Memory>
        ensures { IfOk result (λ _. so_far self.new ≡ close_block first comments (so_far self.old)) }
    {
        match self.around.pop() {
            None => Ok(()),
            Some(block) => {
                let id = block.id;
                self.add_block(alloc, block)?;
                self.add_spot(Part::Close(id), first, comments)
            }
        }
    }
}

#[tactic(auto, using(crate::proofs::SoFarLemmas::logical_ifs))]
fn logical_if(
    alloc: Global,
    id: StmtId,
    label: Option<u32>,
    test: Expr,
    inner: Stmt,
) -> Result<Stmt, Memory>
    ensures { IfOk result (λ s. stmt_tree s ≡ stmt id label (logical_if (expr_tree test) (stmt_tree inner))) }
{
    let what = What::LogicalIf(test, Box::new(alloc, inner)?);
    Ok(Stmt { id, label, what })
}

/// The parts of a block IF, with one more at the end.
#[tactic(auto, using(crate::proofs::SoFarLemmas::arms))]
pub fn add_arm(arms: List<Arm>, test: Expr, body: List<Stmt>) -> Result<List<Arm>, Memory>
    ensures { IfOk result (λ all. map arm_tree all ≡ map arm_tree arms ++ arm (expr_tree test) (stmts_of (map stmt_tree body)) ∷ []) }
{
    let mut arms = arms;
    arms.push(Arm { test, body })?;
    Ok(arms)
}

/// A block with all that stands in it. A DO WHILE is a block IF with one part.
#[tactic(auto, using(crate::proofs::SoFarLemmas::wholes))]
fn what_of(alloc: Global, opening: Opening, list: List<Stmt>) -> Result<What, Memory>
    ensures { IfOk result (λ w. what_tree w ≡ what_of (opening_tree opening) (map stmt_tree list)) }
{
    match opening {
        Opening::Loop(head) => Ok(What::Do(loop_of(head, list))),
        Opening::While(_, test) => Ok(What::If(add_arm(List::new(alloc), test, list)?, None)),
        Opening::Branches(arms, test) => match test {
            None => Ok(What::If(arms, Some(list))),
            Some(test) => Ok(What::If(add_arm(arms, test, list)?, None)),
        },
    }
}

#[tactic(auto, using(f77_ast::proofs::PlainlyStmt::made_structs))]
fn loop_of(head: DoHead, body: List<Stmt>) -> Loop
    ensures { loop_tree result ≡ loop_of (do_tree head) (map stmt_tree body) }
{
    let DoHead {
        label: _,
        index,
        first,
        last,
        step,
    } = head;
    Loop {
        index,
        first,
        last,
        step,
        body,
    }
}

fn is_label(own: Option<u32>, label: u32) -> bool
    ensures { result ≡ is_label label own }
{
    match own {
        None => false,
        Some(own) => own == label,
    }
}

fn is_loop_to(opening: &Opening, label: u32) -> bool
    ensures { result ≡ is_loop_to label (opening_tree opening.now) }
{
    match opening {
        Opening::Loop(head) => is_label(head.label, label),
        Opening::While(own, _) => is_label(*own, label),
        Opening::Branches(..) => false,
    }
}

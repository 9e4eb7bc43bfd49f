//! The modules of a text.
ghost use Rattle.std.specs.Prelude.{◌≡◌, ◌<◌, ◌^◌, [], IfOk, Some, Result, Err, List as Elements, map, sum_by};
ghost use Rattle.f77_ast.specs.PlainDecl.{parsed_tree};
ghost use Rattle.f77_parser.specs.Gives.{Gives, Refused};
ghost use Rattle.f77_parser.specs.SoFar.{so_far};
ghost use Rattle.f77_parser.specs.Statements.{StatementTree, statement_tree, length_of, characters};
ghost use Rattle.f77_parser.specs.Building.{no_statements, whole, written_module, build_module};
ghost use Rattle.f77_parser.specs.Modules.{closing_at, module_fault, module_read, modules_from, statements_in, unless_called, with_reference, parse_of};

use crate::elaboration::elaborate;
use crate::ends::ends_module;
use crate::progress::{Heading, Progress};
use crate::references::{empty_call_fault, reference_fault};
use crate::refusal::ParseRefusal;
use crate::statement::{Statement, all_read, copy_texts, marks_of, refusal_at, those_read};
use f77_ast::{Module, Parsed, Places};
use f77_statements::Cause;
use f77_structure::{Stack, fault_of, stack_of};
use fixed_form::{Line, Lines};
use fx_lists::{Code, List, Refusal, Text, refuse_if};
use std::alloc::{AllocError as Memory, Global};

/// The modules of a text with the lines of their statements, in the order of the text.
pub type ModuleTrees = List<Parsed>;

fn no_statements(alloc: Global) -> Result<Progress, Memory>
    ensures { IfOk result (λ p. so_far p ≡ no_statements) }
{
    let heading = Heading {
        name: Text::from_bytes(alloc, b"MAIN")?,
        main: true,
        titled: false,
        dummies: List::new(alloc),
        function: None,
    };
    Ok(Progress {
        heading,
        decls: List::new(alloc),
        count: 0,
        whiles: List::new(alloc),
        spots: List::new(alloc),
        list: List::new(alloc),
        around: Stack::new(alloc),
    })
}

fn whole(alloc: Global, progress: Progress, closing: List<Text>) -> Parsed
    ensures { parsed_tree result ≡ whole closing (so_far progress) }
{
    let Progress {
        heading,
        decls,
        count: _,
        whiles,
        spots,
        list,
        around: _,
    } = progress;
    let Heading {
        name,
        main,
        titled,
        dummies,
        function,
    } = heading;
    let module = Module {
        name,
        main,
        titled,
        dummies,
        decls,
        body: list,
        function,
        references: List::new(alloc),
        whiles,
    };
    Parsed {
        module,
        places: Places { spots, closing },
    }
}

/// The module as statements without a fault write it.
#[tactic(auto, unfolding(crate::specs::Building::written_module))]
fn written_module(
    alloc: Global,
    statements: List<Statement>,
    closing: List<Text>,
) -> Result<Parsed, Memory>
    ensures { IfOk result (λ p. parsed_tree p ≡ written_module closing (map statement_tree statements)) }
{
    let mut progress = no_statements(alloc)?;
    let mut rest = stack_of(statements);
    while let Some(statement) = rest.pop() {
        progress.add_statement(alloc, statement)?;
    }
    Ok(whole(alloc, progress, closing))
}

/// The module of statements without a fault, with the statements that stand for assignments of the value of a function and for DO
/// WHILEs.
#[tactic(auto, unfolding(crate::specs::Building::build_module))]
fn build_module(
    alloc: Global,
    statements: List<Statement>,
    closing: List<Text>,
) -> Result<Parsed, Memory>
    ensures { IfOk result (λ p. parsed_tree p ≡ build_module closing (map statement_tree statements)) }
{
    let Parsed { module, places } = written_module(alloc, statements, closing)?;
    let module = elaborate(alloc, module)?;
    Ok(Parsed { module, places })
}

/// The earlier of a fault and of one of an assignment of the value of a function.
fn with_reference(line: Option<u32>, found: Option<Refusal>) -> Option<Refusal>
    ensures { result ≡ with_reference line found }
{
    match line {
        None => found,
        Some(line) => refuse_if(true, line, Code::StrayPart, found),
    }
}

/// The fault of a module at the earliest line, and there the one with the lowest number; None where it has none.
fn module_fault(alloc: Global, statements: &[Statement]) -> Result<Option<Refusal>, Memory>
    ensures { IfOk result (λ found. found ≡ module_fault (map statement_tree statements.now)) }
{
    let marks = marks_of(alloc, statements)?;
    let found = fault_of(alloc, marks.as_slice())?;
    Ok(with_reference(reference_fault(alloc, statements)?, found))
}

/// The module, or its first fault.
fn module_read(
    alloc: Global,
    statements: List<Statement>,
    closing: List<Text>,
) -> Result<Parsed, ParseRefusal>
    ensures { Gives parsed_tree result (module_read closing (map statement_tree statements)) }
{
    match module_fault(alloc, statements.as_slice())? {
        None => Ok(build_module(alloc, statements, closing)?),
        Some(found) => {
            let number = found.code.number();
            Err(ParseRefusal::At(found.line, number, Text::new(alloc)))
        }
    }
}

/// The comments behind a module: the last has those at the end of the text.
fn closing_at(alloc: Global, last: bool, closing: &List<Text>) -> Result<List<Text>, Memory>
    ensures { IfOk result (λ texts. texts ≡ closing_at last closing.now) }
{
    if last {
        copy_texts(closing)
    } else {
        Ok(List::new(alloc))
    }
}

/// The modules, each up to its END, or the first fault of the first that has one.
fn modules_of(
    alloc: Global,
    statements: List<Statement>,
    closing: &List<Text>,
) -> Result<ModuleTrees, ParseRefusal>
    ensures { Gives (map parsed_tree) result (modules_from closing.now [] [] (map statement_tree statements)) }
{
    let mut done = List::new(alloc);
    let mut begun = List::new(alloc);
    let mut rest = stack_of(statements);
    while let Some(statement) = rest.pop() {
        let ends = ends_module(&statement.phrase);
        begun.push(statement)?;
        if ends {
            let closing = closing_at(alloc, rest.is_empty(), closing)?;
            match module_read(alloc, begun, closing) {
                Ok(parsed) => done.push(parsed)?,
                Err(refusal) => return Err(refusal),
            }
            begun = List::new(alloc);
        }
    }
    Ok(done)
}

/// A refusal, or Syntax at a line before it.
fn earlier(alloc: Global, line: u32, refusal: ParseRefusal) -> ParseRefusal
    ensures { (read : Result (Elements StatementTree) Refused) → Gives (map statement_tree) (Err refusal) read → Gives (map statement_tree) (Err result) (unless_called (Some line) read) }
{
    match refusal {
        ParseRefusal::At(first, ..) if line < first => refusal_at(alloc, line, Cause::Syntax),
        refusal => refusal,
    }
}

/// The statements of a text, each by itself; Err is the first that is refused, or lack of memory. A text that is refused is read again
/// to the end, since an earlier F() may be refused by what is declared after it.
fn statements_in(alloc: Global, lines: &[Line]) -> Result<List<Statement>, ParseRefusal>
    requires { sum_by length_of lines.now < 2 ^ 28 }
    ensures { Gives (map statement_tree) result (statements_in lines.now) }
{
    match all_read(alloc, lines) {
        Ok(statements) => match empty_call_fault(alloc, statements.as_slice())? {
            None => Ok(statements),
            Some(line) => Err(refusal_at(alloc, line, Cause::Syntax)),
        },
        Err(refusal) => {
            let others = those_read(alloc, lines)?;
            match empty_call_fault(alloc, others.as_slice())? {
                None => Err(refusal),
                Some(line) => Err(earlier(alloc, line, refusal)),
            }
        }
    }
}

/// The modules of a text. Err is its first refusal, or lack of memory: statements by themselves come before the structure of any
/// module, then the first module with a fault, and in it the earliest line and there the lowest code. What follows the last END is
/// no module. The statements of a text of at most 4,000,000 bytes have fewer than 2^28 characters.
#[tactic(auto, unfolding(crate::specs::Modules::parse_of))]
pub fn parse(alloc: Global, lines: &Lines) -> Result<ModuleTrees, ParseRefusal>
    requires { characters lines.now < 2 ^ 28 }
    ensures { Gives (map parsed_tree) result (parse_of lines.now) }
{
    match statements_in(alloc, lines.lines.as_slice()) {
        Ok(statements) => modules_of(alloc, statements, &lines.closing),
        Err(refusal) => Err(refusal),
    }
}

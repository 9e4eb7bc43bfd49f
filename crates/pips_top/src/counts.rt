//! What is counted of a program: its modules, statements, loops, parallel loops and weak claims.
ghost use Rattle.std.specs.Prelude.{◌≡◌, ◌+◌, ◌++◌, map, IfOk, OnOk, length};
ghost use Rattle.pipsmake_base.specs.loop_marker.Views.{results_tree};
ghost use Rattle.pips_top.specs.Counts.{count_line, counts_lines, counts_of, counts_text, is_parallel, no_counts, parallel_among, weak_among, with_module};
ghost use Rattle.pips_top.specs.Program.{program_tree};

use crate::program::Program;
use crate::results::{lines_on, results_of_program};
use call_graph::Graph;
use f77_ast::{At, Mark};
use f77_printer::Added;
use fx_lists::Text;
use pipsmake_base::loop_marker::ModuleResults;
use pipsmake_base::result_lines::Show;
use std::alloc::{AllocError as Memory, Global};

/// What is counted of modules.
#[derive(Clone, Copy)]
pub struct Counts {
    pub statements: usize,
    pub loops: usize,
    pub parallel: usize,
    pub weak: usize,
}

impl Counts {
    fn none() -> Counts
        ensures { result ≡ no_counts }
    {
        Counts {
            statements: 0,
            loops: 0,
            parallel: 0,
            weak: 0,
        }
    }
}

fn is_parallel(mark: &Mark) -> bool
    ensures { result ≡ is_parallel mark.now }
{
    match mark {
        Mark::Parallel(_) => true,
        Mark::Serial(_) => false,
    }
}

fn parallel_among(marks: &[At<Mark>]) -> usize
    ensures { result ≡ parallel_among marks.now }
{
    marks.iter().filter(|mark| is_parallel(&mark.value)).count()
}

/// How many lines end in WEAK.
fn weak_among(lines: &[Added]) -> usize
    ensures { result ≡ weak_among lines.now }
{
    lines
        .iter()
        .filter(|added| added.line.as_slice().ends_with(b" WEAK"))
        .count()
}

/// A sum, where a `usize` holds it.
fn sum(count: usize, more: usize) -> Result<usize, Memory>
    ensures { IfOk result (λ sum. sum ≡ count + more) }
{
    count.checked_add(more).ok_or(Memory)
}

/// These counts, with those of one module more.
fn with_module(
    alloc: Global,
    graph: &Graph,
    counts: Counts,
    results: &ModuleResults<'_>,
) -> Result<Counts, Memory>
    ensures { IfOk result (λ sum. sum ≡ with_module counts (results_tree results.now)) }
{
    let lines = lines_on(alloc, graph, Show::All, results)?;
    let statements = results.preconditions.at.len();
    let parallel = parallel_among(results.marks.as_slice());
    Ok(Counts {
        statements: sum(counts.statements, statements)?,
        loops: sum(counts.loops, results.marks.len())?,
        parallel: sum(counts.parallel, parallel)?,
        weak: sum(counts.weak, weak_among(lines.as_slice()))?,
    })
}

/// The counts of all modules.
#[tactic(auto, using(crate::proofs::Joining::count_steps))]
fn counts_of(alloc: Global, graph: &Graph, all: &[ModuleResults<'_>]) -> Result<Counts, Memory>
    ensures { IfOk result (λ counts. counts ≡ counts_of (map results_tree all.now)) }
{
    let mut counts = Counts::none();
    for results in all {
        counts = with_module(alloc, graph, counts, results)?;
    }
    Ok(counts)
}

/// Appends a name with a number and the end of the line.
#[tactic(auto, using(crate::proofs::Joining::text_steps))]
fn write_count(alloc: Global, out: &mut Text, name: &[u8], count: usize) -> Result<(), Memory>
    ensures { OnOk result (out.new ≡ out.old ++ count_line name.now count) }
{
    out.append(name)?;
    let digits = format!(in alloc; "{count}\n")?;
    out.append(digits.as_bytes())
}

/// The lines of counts, with their ends.
#[tactic(auto, using(crate::proofs::Joining::text_steps))]
fn counts_lines(alloc: Global, modules: usize, counts: &Counts) -> Result<Text, Memory>
    ensures { IfOk result (λ text. text ≡ counts_lines modules counts.now) }
{
    let mut out = Text::new(alloc);
    write_count(alloc, &mut out, b"modules ", modules)?;
    write_count(alloc, &mut out, b"statements ", counts.statements)?;
    write_count(alloc, &mut out, b"loops ", counts.loops)?;
    write_count(alloc, &mut out, b"parallel ", counts.parallel)?;
    write_count(alloc, &mut out, b"weak ", counts.weak)?;
    Ok(out)
}

/// What is counted of a program, in five lines: its modules, statements, loops, parallel loops and weak claims. Linear in the text with
/// all lines, beside the analyses.
pub fn count_program(alloc: Global, program: &Program) -> Result<Text, Memory>
    requires one_each { length program.now.modules ≡ length program.now.tables }
    ensures { IfOk result (λ text. text ≡ counts_text (program_tree program.now)) }
{
    let all = results_of_program(alloc, program)?;
    let counts = counts_of(alloc, &program.graph, all.as_slice())?;
    counts_lines(alloc, program.modules.len(), &counts)
}

//! The modules of a program by their names.
ghost use Rattle.std.specs.Prelude.{◌≡◌, IfSome, option_map};
ghost use Rattle.module_phases.specs.ScalarPhases.{module_of as module_of_is};
ghost use Rattle.module_phases.specs.ScalarViews.{known_in, modules_in, IsNamed};

use call_graph::{Graph, View};
use f77_ast::{Parsed, Symbols};
use fx_lists::{List, Text};
use tracked_cells::Names;

/// The modules of a program, the symbols of each in the same order, the graph of their links, and their names.
#[derive(Drop)]
pub struct Program<'a> {
    pub modules: &'a List<Parsed>,
    pub tables: &'a List<Symbols>,
    pub graph: &'a Graph,
    pub names: Names,
}

/// The first module with a name, in the order of the text; None where there is none. A name is looked up in constant time.
#[tactic(auto, using(crate::proofs::ModuleLaws::modules))]
pub fn module_of<'a>(program: &Program<'a>, name: &Text) -> Option<View<'a>>
    requires { IsNamed program.now }
    ensures module { option_map known_in result ≡ module_of_is (modules_in program.now) name.now }
    ensures graph { IfSome result (λ v. v.graph.now ≡ program.now.graph.now) }
{
    let place = program.names.place(name)? as usize;
    let parsed = program.modules.get(place)?;
    let symbols = program.tables.get(place)?;
    Some(View {
        module: &parsed.module,
        symbols,
        graph: program.graph,
    })
}

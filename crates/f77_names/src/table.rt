//! The names of a module with their types, and the first refusal of their declarations.
ghost use Rattle.std.specs.Prelude.{◌≡◌, IfOk, map};
ghost use Rattle.f77_ast.specs.PlainDecl.{module_tree};
ghost use Rattle.f77_names.specs.Entries.{entry_tree};
ghost use Rattle.f77_names.specs.Functions.{function_of};
ghost use Rattle.f77_names.specs.Tables.{check_entries, check_entry, entry_kind, kind_in, check_names, table_of, told_of};
ghost use Rattle.f77_names.specs.Views.{line_in, table_tree, told_tree};

use crate::appear::{Sight, see_list};
use crate::declare::Told;
use crate::functions::Arrays;
use crate::kinds::{Kinds, kind_of_scalar};
use crate::{Entry, Function, Kind, LineTable, Names, Sited};
use f77_ast::Module;
use fx_lists::{Code, Refusal, Text, refuse_if};
use std::alloc::{AllocError as Memory, Global};

/// The names of a module, the types of the letters, and which names are functions.
#[derive(Drop)]
pub struct NameTable {
    pub names: Names,
    kinds: Kinds,
    arrays: Arrays,
}

impl NameTable {
    /// The type of a name, which need not be there: a declared one, or that of its first letter. Takes no memory.
    #[tactic(auto, unfolding(crate::specs::Tables::kind_in))]
    pub fn kind_of(&self, name: &Text) -> Kind
        ensures { result ≡ kind_in (table_tree self.now) name.now }
    {
        match self.names.find(name) {
            None => self.kinds.kind_of_name(name),
            Some(entry) => self.entry_kind(entry),
        }
    }

    /// The type of an entry: a declared one, or that of its first letter. Takes no memory.
    #[tactic(auto, unfolding(crate::specs::Tables::entry_kind))]
    pub fn entry_kind(&self, entry: &Entry) -> Kind
        ensures { result ≡ entry_kind (table_tree self.now).kinds (entry_tree entry.now) }
    {
        match entry.scalar {
            None => self.kinds.kind_of_name(&entry.name),
            Some(scalar) => kind_of_scalar(scalar),
        }
    }

    /// The intrinsic function that a name stands for; None where it stands for none. Takes no memory.
    pub fn function_of(&self, name: &Text) -> Option<Function>
        ensures { result ≡ function_of (table_tree self.now).arrays name.now }
    {
        self.arrays.function_of(name)
    }

    /// The names alone, in the order of first appearance, dummies first. Takes no memory.
    pub fn into_entries(self) -> Vec<Entry>
        ensures { map entry_tree result.items ≡ (table_tree self).entries }
    {
        let NameTable { names, .. } = self;
        names.into_entries()
    }

    fn judge_entry(&self, entry: &Entry, found: Option<Refusal>) -> Option<Refusal>
        ensures { result ≡ check_entry (table_tree self.now).kinds (entry_tree entry.now) found }
    {
        let real = match self.entry_kind(entry) {
            Kind::Real => true,
            Kind::Int | Kind::Log => false,
        };
        let found = refuse_if(real, entry.line, Code::RealName, found);
        match entry.common {
            None => found,
            Some(line) => {
                let wrong = entry.dummy.is_some() || entry.parameter;
                refuse_if(wrong, line, Code::CommonTwice, found)
            }
        }
    }

    #[tactic(auto, using(f77_ast::proofs::PlainlyDecl::decl_lists))]
    fn judge(&self, before: Option<Refusal>) -> Option<Refusal>
        ensures { result ≡ check_entries (table_tree self.now).kinds (table_tree self.now).entries before }
    {
        let mut found = before;
        for entry in self.names.as_slice() {
            found = self.judge_entry(entry, found);
        }
        found
    }
}

/// What the statements of a module say of its names, in the order of the text, dummies first.
fn told_of(
    alloc: Global,
    arrays: &Arrays,
    lines: &LineTable,
    module: &Module,
) -> Result<Told, Memory>
    ensures { IfOk result (λ t. told_tree t ≡ told_of arrays.now (line_in lines.now) (module_tree «module».now)) }
{
    let mut told = Told {
        names: Names::new(alloc),
        found: None,
    };
    let sight = Sight {
        alloc,
        arrays,
        lines,
    };
    let line = lines.line_or(Sited::Title, 0);
    told.tell_dummies(alloc, &module.dummies, line)?;
    told.tell_form(module.function, &module.name, line);
    told.tell_decls(&sight, &module.decls)?;
    see_list(&sight, &module.body, 0, &mut told.names)?;
    Ok(told)
}

/// The names of a module in the order of first appearance, dummies first, and the first refusal of them: a second declaration,
/// `RealName`, or a dummy or PARAMETER in COMMON. A line that `lines` does not have is 0, or that of the statement around.
pub fn table_of(
    alloc: Global,
    lines: &LineTable,
    module: &Module,
) -> Result<(NameTable, Option<Refusal>), Memory>
    ensures table { IfOk result (λ r. table_tree r.0 ≡ table_of (line_in lines.now) (module_tree «module».now)) }
    ensures found { IfOk result (λ r. r.1 ≡ check_names (line_in lines.now) (module_tree «module».now)) }
{
    let kinds = Kinds::of(alloc, &module.decls)?;
    let arrays = Arrays::of(alloc, &module.decls)?;
    let Told { names, found } = told_of(alloc, &arrays, lines, module)?;
    let table = NameTable {
        names,
        kinds,
        arrays,
    };
    let found = table.judge(found);
    Ok((table, found))
}

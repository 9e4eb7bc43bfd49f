//! The auxiliary variables among those that stand for others.
ghost use Rattle.std.specs.Prelude.{◌≡◌, ◌++◌, IfOk};
ghost use Rattle.call_translation.specs.Variables.{auxiliary_of, auxiliaries_in as auxiliaries_in_is};

use affine_systems::Var;
use fx_lists::List;
use std::alloc::{AllocError as Memory, Global};
use transformer_algebra::Naming;

/// Adds a variable, if it is auxiliary.
fn add_auxiliary(out: &mut List<Var>, v: Var) -> Result<(), Memory>
    ensures { IfOk result (λ _. out.new ≡ out.old ++ auxiliary_of v) }
{
    match v {
        Var::Aux(_) => out.push(v),
        Var::Cell(_) | Var::Exit(_) | Var::Phi(_) => Ok(()),
    }
}

/// The auxiliary variables that the namings lead to, in their order, repeated ones too: they replace the variables without a counterpart in
/// the module to whose variables a system is translated.
#[tactic(auto, using(crate::proofs::Steps::auxiliary_loop))]
pub fn auxiliaries_in(alloc: Global, names: &[Naming]) -> Result<List<Var>, Memory>
    ensures { IfOk result (λ vs. vs ≡ auxiliaries_in_is names.now) }
{
    let mut out = List::new(alloc);
    for name in names {
        add_auxiliary(&mut out, name.to)?;
    }
    Ok(out)
}

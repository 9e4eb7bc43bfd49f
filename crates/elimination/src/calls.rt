//! Elimination of a variable of a system.
ghost use Rattle.std.specs.Prelude.{◌≡◌, IfOk};
ghost use Rattle.affine_systems.specs.Eliminate.{eliminate as eliminate_is};
ghost use Rattle.affine_systems.specs.Given.{Fits};
ghost use Rattle.affine_systems.specs.Laws.{ProjectsPoints, ExtendsPoints, Lacks};

use crate::elimination::eliminate_item;
use affine_systems::items::{items_of, rows_of};
use affine_systems::{Elim, System, Var};
use std::alloc::{AllocError as Memory, Global};

/// The projection of a system that removes one variable: by an equal row with it, else by Fourier-Motzkin pairs, which
/// are as many as the lower rows times the upper ones. No point is lost.
pub fn eliminate(alloc: Global, sys: System, var: Var) -> Result<Elim, Memory>
    requires fits { Fits sys }
    ensures defined { IfOk result (λ e. e ≡ eliminate_is sys var) }
    ensures fits { IfOk result (λ e. Fits e.system) }
    ensures gone { IfOk result (λ e. Lacks var e.system.rows) }
    ensures sound { IfOk result (ProjectsPoints sys var) }
    ensures exact { IfOk result (ExtendsPoints sys var) }
{
    let System { rows, weak } = sys;
    let items = items_of(alloc, rows.into_vec())?;
    let e = eliminate_item(alloc, false, var, items)?;
    Ok(Elim {
        system: System {
            rows: rows_of(alloc, e.items)?,
            weak: weak || e.lost,
        },
        exact: e.exact,
    })
}

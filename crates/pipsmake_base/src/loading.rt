//! A database that goes on from a base.
ghost use Rattle.std.specs.Prelude.{◌≡◌, IfOk, OnOk};
ghost use Rattle.base_text.specs.Grammar.{IsBase};
ghost use Rattle.pipsmake_db.specs.Links.{AreLinks};
ghost use Rattle.pipsmake_db.specs.State.{texts_of, memo_cells_in, IsIn};
ghost use Rattle.pipsmake_db.specs.Calls.{Rests};
ghost use Rattle.pipsmake_base.specs.Plain.{IsPlain, texts_behind};
ghost use Rattle.pipsmake_base.specs.Saved.{texts_in, keys_in, IsSaved, loaded_state};
ghost use Rattle.pipsmake_base.specs.Whole.{values_in, IsCompleteBase};
ghost use Rattle.pipsmake_base.specs.Taken.{KeepsAll};

use crate::keep::keep_results;
use crate::plain::Plain;
use crate::see::see_results;
use crate::source::over_texts;
use base_text::Base;
use pipsmake_db::base_values::fits_is_taken;
use pipsmake_db::pipsmake_rules::{Kind, Listed};
use pipsmake_db::result_making::Modules;
use pipsmake_db::{Db, Links};
use std::alloc::{AllocError as Memory, Global};

/// Results that were seen are kept in a database, as made from its texts, and are fresh.
fn keep_all(
    alloc: Global,
    db: &mut Db,
    plain: &mut Plain<'_>,
    links: &Links,
    fresh: &Listed,
) -> Result<(), Memory>
    requires links { AreLinks links.now (texts_of db.old) }
    requires in_some { IsPlain plain.old }
    requires texts { texts_behind plain.old ≡ texts_of db.old }
    ensures same { texts_of db.new ≡ texts_of db.old }
    ensures ok { OnOk result (KeepsAll (texts_of db.old) (memo_cells_in db.old) fresh.now (memo_cells_in db.new)) }
{
    let copy = fresh.copied(alloc)?;
    let keys = copy.into_list();
    let mut seen = fresh.copied(alloc)?;
    let modules = Modules {
        sources: db.linked.sources(),
        graph: &links.graph,
        linked: links.linked,
    };
    keep_results(
        alloc,
        plain,
        &modules,
        &mut db.store,
        &mut seen,
        keys.as_slice(),
    )?;
    Ok(())
}

/// A database over the texts of a base, in which its results are kept as made from these texts, and are fresh. Statements, lines, symbols, graph and written
/// texts are not kept. Takes time in proportion to the base; where a stored result needs one that is not stored, also that of its analysis.
pub fn load(alloc: Global, base: Base) -> Result<Db, Memory>
    requires { IsBase base }
    ensures texts { IfOk result (λ d. texts_of d ≡ texts_in base) }
    ensures fresh { IfOk result (λ d. d.fresh ≡ keys_in base) }
    ensures stands { IfOk result (λ d. IsSaved base → IsIn d (loaded_state base)) }
    ensures rests { IfOk result (λ d. IsCompleteBase base → Rests d (values_in base)) }
{
    fits_is_taken();
    let Base { modules, results } = base;
    let mut plain = Plain {
        modules: modules.as_slice(),
        db: None,
    };
    let mut db = over_texts(alloc, modules.as_slice())?;
    let fresh = see_results(alloc, &mut db.store, results)?;
    let links = match db.linked.links(alloc, Kind::Parsed) {
        Ok(links) => links,
        Err(_) => return Err(Memory),
    };
    keep_all(alloc, &mut db, &mut plain, &links, &fresh)?;
    db.linked.give_back(links);
    db.fresh = fresh;
    Ok(db)
}

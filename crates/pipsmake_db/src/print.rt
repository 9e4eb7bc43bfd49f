//! The written texts of all modules.
ghost use Rattle.std.specs.Prelude.{◌≡◌, None, IfOk, OnOk};
ghost use Rattle.session_texts.specs.pipsmake_meaning.Texts.{names_in};
ghost use Rattle.pipsmake_db.specs.Links.{AreLinks};
ghost use Rattle.pipsmake_db.specs.Refusals.{link_refusal};
ghost use Rattle.pipsmake_db.specs.State.{texts_of};
ghost use Rattle.pipsmake_db.specs.AnswerSteps.{PrintsAll};
ghost use Rattle.pipsmake_db.specs.Walked.{AreWalked, PrintsNext, walked_on};

use crate::Db;
use crate::bring::bring_all;
use crate::fresh::put_all;
use crate::linked::Links;
use crate::refuse::memory_of;
use crate::show::text_kept;
use crate::walked::{Walked, none_walked, walk_on};
use fx_lists::{List, Text};
use laws_database::texts_are_shown;
use result_lines::Show;
use result_making::Modules;
use session_texts::pipsmake_rules::{Key, Kind};
use session_texts::roundtrip_programs::{graphs_ignore_places, tables_ignore_places};
use session_texts::write_made;
use std::alloc::{AllocError as Memory, Global};

/// What printing gives: the lines that say what was made, and the texts of the modules, one after another.
#[derive(Drop)]
pub struct Prints {
    pub made: Text,
    pub text: Text,
}

/// The same texts.
fn copies(alloc: Global, texts: &[Text]) -> Result<List<Text>, Memory>
    ensures { IfOk result (λ copy. copy ≡ texts.now) }
{
    let mut copy = List::new(alloc);
    for text in texts {
        copy.push(text.clone()?)?;
    }
    Ok(copy)
}

/// Walks along the needs of the written text of a module.
fn walk_next(
    alloc: Global,
    db: &Db,
    links: &Links,
    name: &Text,
    walked: &mut Walked,
) -> Result<(), Memory>
    requires links { AreLinks links.now (texts_of db.now) }
    requires same { walked.old.keys ≡ walked.old.listed }
    ensures { IfOk result (λ _. AreWalked (walked_on (texts_of db.now) walked.old.listed name.now) walked.new) }
{
    if links.graph.order.len() >= 4_294_967_296 {
        return Err(Memory);
    }
    let depth = 12 * (links.graph.order.len() + 1);
    let name = name.clone()?;
    let key = Key {
        kind: Kind::Printed,
        name,
    };
    let names = db.linked.sources().names();
    walk_on(alloc, depth, names, &links.graph, walked, &key)
}

/// Adds what is made for the written text of a module, and that text. What was walked before is up to date, and is not looked at again.
fn print_next(
    alloc: Global,
    db: &mut Db,
    links: &Links,
    show: Show,
    name: &Text,
    walked: &mut Walked,
    prints: &mut Prints,
) -> Result<(), Memory>
    requires links { AreLinks links.now (texts_of db.old) }
    requires same { walked.old.keys ≡ walked.old.listed }
    ensures texts { texts_of db.new ≡ texts_of db.old }
    ensures prints { OnOk result (PrintsNext show name.now db.old db.new walked.old.listed walked.new prints.old prints.new) }
{
    let before = walked.keys.as_slice().len();
    walk_next(alloc, db, links, name, walked)?;
    let modules = Modules {
        sources: db.linked.sources(),
        graph: &links.graph,
        linked: links.linked,
    };
    let added = &walked.keys.as_slice()[before..];
    let made = bring_all(alloc, &modules, &mut db.store, added)?;
    put_all(alloc, &mut db.fresh, added)?;
    let Some(text) = text_kept(alloc, &modules, &db.store, Kind::Printed, name, show)? else {
        return Err(Memory);
    };
    write_made(&mut prints.made, made.as_slice())?;
    prints.text.append(text.as_slice())
}

/// The written texts of all modules, which link as is said.
fn print_rest(
    alloc: Global,
    db: &mut Db,
    links: &Links,
    show: Show,
    names: &[Text],
) -> Result<Prints, Memory>
    requires names { names.now ≡ names_in (texts_of db.old) }
    requires links { AreLinks links.now (texts_of db.old) }
    requires linked { link_refusal (texts_of db.old) ≡ None }
    ensures texts { texts_of db.new ≡ texts_of db.old }
    ensures prints { IfOk result (PrintsAll show db.old db.new) }
{
    texts_are_shown();
    tables_ignore_places();
    graphs_ignore_places();
    let mut prints = Prints {
        made: Text::new(alloc),
        text: Text::new(alloc),
    };
    let mut walked = none_walked(alloc);
    let mut rest = names;
    while let [name, more @ ..] = rest {
        print_next(alloc, db, links, show, name, &mut walked, &mut prints)?;
        rest = more;
    }
    Ok(prints)
}

/// The written texts of all modules that link, in the order in which these were first seen. Each result that they need is looked at once.
pub fn print_all(alloc: Global, db: &mut Db, show: Show) -> Result<Prints, Memory>
    requires { link_refusal (texts_of db.old) ≡ None }
    ensures { IfOk result (PrintsAll show db.old db.new) }
{
    let names = copies(alloc, db.names())?;
    match db.linked.links(alloc, Kind::Printed) {
        Ok(links) => {
            let done = print_rest(alloc, db, &links, show, names.as_slice());
            db.linked.give_back(links);
            done
        }
        Err(refusal) => Err(memory_of(refusal)),
    }
}

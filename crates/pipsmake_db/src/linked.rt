//! The present texts, and their links, which are kept while the texts stay.
ghost use Rattle.std.specs.Prelude.{◌≡◌, [], Ok, Err, None, map, slice_get, IfOk, IfErr, IfSome, OnOk, OnErr, is_ok};
ghost use Rattle.call_graph.specs.Faults.{Gives};
ghost use Rattle.session_texts.specs.pipsmake_meaning.Texts.{names_in, links_in};
ghost use Rattle.session_texts.specs.Changes.{replaced, without};
ghost use Rattle.session_texts.specs.Modules.{source_text, AreSources, NamesDiffer};
ghost use Rattle.session_texts.specs.pipsmake_rules.Neighbours.{has_name};
ghost use Rattle.pipsmake_db.specs.Links.{AreLinks, IsAt};
ghost use Rattle.pipsmake_db.specs.Refusals.{IsRefused, link_refusal, links_refusal};

use crate::refusal::DbRefusal;
use call_graph::{Graph, LinkRefusal};
use fx_lists::{List, Text};
use result_making::no_links;
use session_texts::pipsmake_rules::Kind;
use session_texts::{Source, Sources};
use std::alloc::{AllocError as Memory, Global};
use std::marker::Model;
use std::mem::replace;

/// The graph of texts, which has no modules where they do not link.
#[derive(Drop)]
pub struct Links {
    pub graph: Graph,
    pub linked: bool,
}

/// Texts, and their graph where it is known. Contracts see the texts.
#[derive(Drop)]
pub struct Linked {
    sources: Sources,
    graph: Option<Graph>,
}

impl Model for Linked {
    ghost use Rattle.std.specs.Prelude.{List};
    ghost use Rattle.session_texts.specs.pipsmake_meaning.Texts.{ModuleText};
    ghost use Rattle.pipsmake_db.specs.Graphs.{IsGraph};

    ghost Value = { List ModuleText };

    ghost view = { λ l. l.sources };

    ghost invariant = { λ l. IsGraph l.sources l.graph };
}

impl Linked {
    /// No texts. Takes no memory.
    pub fn new(alloc: Global) -> Linked
        ensures { result ≡ [] }
    {
        Linked {
            sources: Sources::new(alloc),
            graph: None,
        }
    }

    /// The texts with their modules.
    pub fn sources(&self) -> &Sources
        ensures { result.now ≡ self.now }
    {
        &self.sources
    }

    /// The graph, where it is known. Takes no memory.
    pub fn graph(&self) -> Option<&Graph>
        ensures { IfSome result (λ g. links_in self.now ≡ Ok g.now) }
    {
        self.graph.as_ref()
    }

    /// Each text takes the place of the one of its name, or is added at the end. Err leaves all as it was.
    pub fn put(&mut self, alloc: Global, found: List<Source>) -> Result<(), Memory>
        requires { AreSources found }
        ensures ok { OnOk result (self.new ≡ replaced self.old (map source_text found)) }
        ensures err { OnErr result (self.new ≡ self.old) }
    {
        self.graph = None;
        self.sources.replace(alloc, found)
    }

    /// The texts are just these, in their order. Err leaves all as it was.
    pub fn put_only(&mut self, alloc: Global, found: List<Source>) -> Result<(), Memory>
        requires modules { AreSources found }
        requires differ { NamesDiffer (map source_text found) }
        ensures ok { OnOk result (self.new ≡ map source_text found) }
        ensures err { OnErr result (self.new ≡ self.old) }
    {
        self.graph = None;
        self.sources.replace_all(alloc, found)
    }

    /// Removes the text of a name; false where there is none. Err leaves all as it was.
    pub fn remove(&mut self, alloc: Global, name: &Text) -> Result<bool, Memory>
        ensures there { IfOk result (λ there. there ≡ has_name (names_in self.old) name.now) }
        ensures ok { OnOk result (self.new ≡ without name.now self.old) }
        ensures err { OnErr result (self.new ≡ self.old) }
    {
        self.graph = None;
        self.sources.drop_module(alloc, name)
    }

    /// The graph, which is no longer kept.
    fn take(&mut self, alloc: Global) -> Result<Graph, LinkRefusal>
        ensures gives { Gives result (links_in self.old) }
        ensures same { self.new ≡ self.old }
    {
        match replace(&mut self.graph, None) {
            Some(graph) => Ok(graph),
            None => self.sources.link(alloc),
        }
    }

    /// The graph is kept.
    fn keep(&mut self, graph: Graph)
        requires { links_in self.old ≡ Ok graph }
        ensures { self.new ≡ self.old }
    {
        self.graph = Some(graph);
    }

    /// The refusal for a line of the text at a place.
    fn fault_at(&self, alloc: Global, place: u32, line: u32, code: u32) -> Result<DbRefusal, Memory>
        ensures { IfOk result (IsAt (slice_get self.now place) line code) }
    {
        match self.sources.text(place as usize) {
            None => Ok(DbRefusal::Link(Text::new(alloc), line, 1, code)),
            Some(text) => Ok(DbRefusal::Link(text.name.clone()?, line, text.first, code)),
        }
    }

    /// The refusal for what is wrong with the links.
    fn refused(&self, alloc: Global, refusal: LinkRefusal) -> DbRefusal
        requires { Gives (Err refusal) (links_in self.now) }
        ensures { IsRefused (link_refusal self.now) result }
    {
        match refusal {
            LinkRefusal::NoMain => DbRefusal::Link(Text::new(alloc), 1, 1, 50),
            LinkRefusal::At(place, line, code) => match self.fault_at(alloc, place, line, code) {
                Ok(refusal) => refusal,
                Err(_) => DbRefusal::Memory,
            },
            LinkRefusal::Memory => DbRefusal::Memory,
        }
    }

    /// The links of texts that link.
    fn all_links(&mut self, alloc: Global) -> Result<Links, DbRefusal>
        ensures links { IfOk result (λ l. AreLinks l self.old) }
        ensures linked { OnOk result (link_refusal self.old ≡ None) }
        ensures refused { IfErr result (IsRefused (link_refusal self.old)) }
        ensures same { self.new ≡ self.old }
    {
        match self.take(alloc) {
            Ok(graph) => Ok(Links {
                graph,
                linked: true,
            }),
            Err(refusal) => Err(self.refused(alloc, refusal)),
        }
    }

    /// The links of texts that need not link.
    fn any_links(&mut self, alloc: Global) -> Result<Links, DbRefusal>
        ensures links { IfOk result (λ l. AreLinks l self.old) }
        ensures refused { IfErr result (IsRefused None) }
        ensures same { self.new ≡ self.old }
    {
        match self.take(alloc) {
            Ok(graph) => Ok(Links {
                graph,
                linked: true,
            }),
            Err(LinkRefusal::Memory) => Err(DbRefusal::Memory),
            Err(LinkRefusal::NoMain) | Err(LinkRefusal::At(..)) => Ok(Links {
                graph: no_links(alloc),
                linked: false,
            }),
        }
    }

    /// The links that results of a kind are made with. Err is a refusal where the kind needs links and there are none.
    pub fn links(&mut self, alloc: Global, kind: Kind) -> Result<Links, DbRefusal>
        ensures links { IfOk result (λ l. AreLinks l self.old) }
        ensures linked { OnOk result (links_refusal self.old kind ≡ None) }
        ensures refused { IfErr result (IsRefused (links_refusal self.old kind)) }
        ensures same { self.new ≡ self.old }
    {
        match kind {
            Kind::Parsed | Kind::Lines | Kind::Symbols => self.any_links(alloc),
            Kind::CallGraph
            | Kind::Effects
            | Kind::Transformers
            | Kind::Preconditions
            | Kind::Regions
            | Kind::InRegions
            | Kind::OutRegions
            | Kind::Marks
            | Kind::Printed => self.all_links(alloc),
        }
    }

    /// Links that are no longer used are kept.
    pub fn give_back(&mut self, links: Links)
        requires { AreLinks links self.old }
        ensures { self.new ≡ self.old }
    {
        let Links { graph, linked } = links;
        if linked {
            self.keep(graph);
        }
    }

    /// That the texts link, or the refusal that says what is wrong.
    pub fn check(&mut self, alloc: Global) -> Result<(), DbRefusal>
        ensures ok { OnOk result (link_refusal self.old ≡ None) }
        ensures refused { IfErr result (IsRefused (link_refusal self.old)) }
        ensures same { self.new ≡ self.old }
    {
        let links = self.all_links(alloc)?;
        self.give_back(links);
        Ok(())
    }
}

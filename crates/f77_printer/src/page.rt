//! The written text of a module so far.
ghost use Rattle.std.specs.Prelude.{◌≡◌, ◌++◌, [], OnOk};
ghost use Rattle.f77_printer.specs.PageText.{lines_text, with_text, with_comments, with_line};
ghost use Rattle.f77_printer.specs.Here.{here_part};
ghost use Rattle.f77_printer.specs.Pages.{page_tree};

use crate::here::{Here, stands_at};
use crate::layout::write_lines;
use f77_ast::Spot;
use fx_lists::{List, Text};
use std::alloc::{AllocError as Memory, Global};

/// The text so far, and the spots of the parts that are not written yet, in the order of the text.
#[derive(Drop)]
pub struct Page<'a> {
    pub text: Text,
    pub spots: &'a [Spot],
}

/// Appends lines as they are, each ended by LF.
#[tactic(auto, using(crate::proofs::PageLemmas::lines_steps))]
pub fn write_whole(out: &mut Text, lines: &List<Text>) -> Result<(), Memory>
    ensures { OnOk result (out.new ≡ out.old ++ lines_text lines.now) }
{
    for line in lines.as_slice() {
        out.append(line.as_slice())?;
        out.append(b"\n")?;
    }
    Ok(())
}

/// Appends bytes as they are.
#[tactic(auto, unfolding(crate::specs::PageText::with_text))]
pub fn put(page: &mut Page<'_>, more: &[u8]) -> Result<(), Memory>
    ensures { OnOk result (page_tree page.new ≡ with_text more.now (page_tree page.old)) }
{
    page.text.append(more)
}

/// Appends the comments of a part and takes its spot away, where its spot comes next; does nothing where it does not.
#[tactic(auto, unfolding(crate::specs::PageText::with_comments))]
pub fn put_comments(page: &mut Page<'_>, here: Here) -> Result<(), Memory>
    ensures { OnOk result (page_tree page.new ≡ with_comments (here_part here) (page_tree page.old)) }
{
    match page.spots {
        [] => Ok(()),
        [spot, others @ ..] => {
            if stands_at(here, spot.part) {
                write_whole(&mut page.text, &spot.comments)?;
                page.spots = others;
            }
            Ok(())
        }
    }
}

/// Appends the lines of a statement with its label, as `write_lines` does.
#[tactic(auto, unfolding(crate::specs::PageText::with_text))]
pub fn put_line(
    alloc: Global,
    page: &mut Page<'_>,
    label: Option<u32>,
    text: &Text,
) -> Result<(), Memory>
    ensures { OnOk result (page_tree page.new ≡ with_line label text.now (page_tree page.old)) }
{
    write_lines(alloc, &mut page.text, label, text)
}

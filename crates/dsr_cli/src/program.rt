// The whole program, over any shelf and any output.
ghost use Rattle.std.specs.Prelude.{map, string_bytes};
ghost use Rattle.dsr_cli.specs.Headline.{Headline};
ghost use Rattle.dsr_script.specs.Outside.{told_by};

use crate::waiting::Waiting;
use dsr_command_laws::{
    certificates_are_verified, facts_are_explained, images_are_checked, images_are_edited,
    images_are_repaired, lost_records_are_listed, plans_are_certified, plans_are_found,
    repairs_are_undone, reports_are_audited, sound_repairs_are_taken_back, texts_are_printed,
    trials_are_told, usage_is_told,
};
use dsr_script::Status;
use dsr_store::{Shelf, Sink};
use std::alloc::Global;

/// Does what the words say, and puts the answer: the words of the command line without the
/// program's name. `NoMemory` may come at any point, and nothing is put after it.
pub fn run<F: Shelf, O: Sink>(
    alloc: Global,
    words: &Vec<String>,
    shelf: &mut F,
    out: &mut O,
) -> Status
    ensures { Headline (map string_bytes words.now.items)
        (told_by F.Shelf O.Sink shelf.old out.old) (told_by F.Shelf O.Sink shelf.new out.new) result }
{
    usage_is_told();
    images_are_checked();
    texts_are_printed();
    plans_are_found();
    plans_are_certified();
    certificates_are_verified();
    images_are_repaired();
    trials_are_told();
    facts_are_explained();
    lost_records_are_listed();
    reports_are_audited();
    repairs_are_undone();
    sound_repairs_are_taken_back();
    images_are_edited();
    dsr_script::run::<Waiting, F, O>(alloc, words, shelf, out)
}

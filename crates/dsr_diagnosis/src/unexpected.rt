// What is told of a token that continues no text of the grammar, or of an early end.
use crate::expected::{Expected, expected_at, in_words};
use crate::hints::{hint_end, hint_token};
use crate::tokens::{length_in, place_of};
use dsr_ir::NoMemory;
use dsr_passages::{Diagnosis, Scene, Words, length_of, number_in, part};
use std::alloc::Global;

// What stands at the place.
fn say_found(words: &mut Words, scene: &Scene<'_>) {
    match scene.found() {
        Some(lexeme) => {
            let place = lexeme.place as usize;
            let end = place.saturating_add(length_of(scene.text, lexeme));
            words.say_of("`{}` can't stand here", &[part(scene.text, place, end)]);
        }
        None => words.say("the text ends too early"),
    }
}

// Adds what could stand at the place. A number where numbers may stand is the version.
fn hint_expected(alloc: Global, words: &mut Words, scene: &Scene<'_>, expected: &Expected) {
    match number_in(scene.found()) {
        Some(_) if expected.number => {
            words.hint("expected `1` or `2`, the versions there are");
        }
        _ => words.add(in_words(alloc, expected)),
    }
}

/// What is told of a token that continues no text of the grammar, or of an early end.
pub fn unexpected(alloc: Global, scene: &Scene<'_>) -> Result<Diagnosis, NoMemory> {
    let found = scene.found();
    let place = place_of(scene, found);
    let expected = expected_at(alloc, scene.text, place, scene.is_second())?;
    let mut words = Words::new(alloc);
    say_found(&mut words, scene);
    hint_expected(alloc, &mut words, scene, &expected);
    hint_end(&mut words, scene, &expected);
    hint_token(alloc, &mut words, scene, &expected);
    words.at(place, length_in(scene, found))
}

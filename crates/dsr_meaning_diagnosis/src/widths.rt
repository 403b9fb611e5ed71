// What is told of bits: fields that begin inside a byte, and constants that are too wide.
use dsr_declarations::{around, place_in, read_field};
use dsr_passages::{Declaration, Scene, Words, keyword_in, name_in, number_in, sign_in};
use dsr_tree::{
    Content, Field, Inclusion, Keyword, NamedField, Rule, Sign, Structure, Tree, Width,
};
use dsr_wording::Text;

// How many bits an entry of this width has.
fn bits_of(width: Width) -> u64 {
    match width {
        Width::U8 { place: _ } => 8,
        Width::U16 { place: _ } => 16,
        Width::U32 { place: _ } => 32,
        Width::U64 { place: _ } => 64,
        Width::Bits { place: _, number } => number.number,
    }
}

// How many bits of a byte are taken behind a field.
fn taken_behind(taken: u64, field: &Field) -> u64 {
    match field {
        Field::Named(named) if named.length.is_none() => {
            taken.saturating_add(bits_of(named.width)) % 8
        }
        _ => 0,
    }
}

// Where a field stands.
fn field_place(field: &Field) -> u64 {
    match field {
        Field::Named(named) => named.name.place,
        Field::Skip { place, length: _ } => *place,
    }
}

// How many bits of a byte are taken before a field of a structure.
fn taken_before(structure: &Structure, place: u64) -> u64 {
    let mut taken = 0;
    for field in structure.fields.items() {
        if field_place(field) == place {
            return taken;
        }
        taken = taken_behind(taken, field);
    }
    0
}

/// That a field of whole bytes begins inside a byte.
pub fn say_unaligned(words: &mut Words, scene: &Scene<'_>, tree: &Tree) {
    words.say("a field of whole bytes, an array or a `skip` begins inside a byte");
    let place = place_in(scene);
    let Some(structure) = around(tree.structures.items(), place) else {
        return;
    };
    let taken = taken_before(structure, place);
    let mut hint = Text::new(words.message.allocator());
    hint.push("the bits before it take ");
    hint.number(taken);
    hint.push(" of a byte: put a field of `bits ");
    hint.number(8u64.saturating_sub(taken));
    hint.push("` between");
    words.add(hint);
}

// The greatest number of so many bits.
fn greatest(bits: u64) -> u64 {
    if bits == 0 {
        return 0;
    }
    if bits >= 64 {
        return u64::MAX;
    }
    u64::MAX >> (64 - bits)
}

// The field of a rule's guard with which the number at the place is compared.
fn compared_field<'a>(scene: &Scene<'_>, tree: &'a Tree) -> Option<&'a NamedField> {
    let steps = match sign_in(scene.before(2)) {
        Some(Sign::CloseBracket) => 5,
        _ => 2,
    };
    let name = name_in(scene.before(steps))?;
    read_field(tree, around(tree.rules.items(), place_in(scene))?, name)
}

// The field by which a rule gives numbers to a relation.
fn giving_field<'a>(tree: &'a Tree, rule: &Rule, name: &[u8]) -> Option<&'a NamedField> {
    match &rule.inclusion {
        Inclusion::Pair {
            place: _,
            term: _,
            path,
            relation,
        } if relation.name.bytes() == name => { read_field(tree, rule, path.field.name.bytes()) }
        _ => None,
    }
}

// The narrower one of two fields.
fn narrower<'a>(one: Option<&'a NamedField>, other: &'a NamedField) -> &'a NamedField {
    match one {
        Some(one) if bits_of(one.width) <= bits_of(other.width) => one,
        _ => other,
    }
}

// The narrowest field by which a relation is given numbers.
fn related_field<'a>(scene: &Scene<'_>, tree: &'a Tree) -> Option<&'a NamedField> {
    let name = name_in(scene.before(2))?;
    let mut found = None;
    for rule in tree.rules.items() {
        if let Some(field) = giving_field(tree, rule, name) {
            found = Some(narrower(found, field));
        }
    }
    found
}

// Whether the number behind a field's `init` stands at a place.
fn is_reset_at(field: &NamedField, place: u64) -> bool {
    match &field.content {
        Some(Content::Init { place: _, number }) => number.place == place,
        _ => false,
    }
}

// The field whose value after a reset stands at the place.
fn reset_field<'a>(scene: &Scene<'_>, tree: &'a Tree) -> Option<&'a NamedField> {
    let place = place_in(scene);
    for field in around(tree.structures.items(), place)?.fields.items() {
        if let Field::Named(named) = field
            && is_reset_at(named, place)
        {
            return Some(named);
        }
    }
    None
}

// The field that is too narrow for the number at the place.
fn narrow_field<'a>(scene: &Scene<'_>, tree: &'a Tree) -> Option<&'a NamedField> {
    let (declaration, _) = scene.declaration();
    match declaration {
        Declaration::Structure => reset_field(scene, tree),
        Declaration::Rule => compared_field(scene, tree),
        Declaration::Constraint => related_field(scene, tree),
        _ => None,
    }
}

// Adds which numbers a field holds.
fn hint_width(words: &mut Words, field: &NamedField) {
    let bits = bits_of(field.width);
    let mut hint = Text::new(words.message.allocator());
    hint.fill("`{}` has ", &[field.name.name.bytes()]);
    hint.number(bits);
    hint.push(" bits, and holds numbers from 0 to ");
    hint.number(greatest(bits));
    words.add(hint);
}

/// That a width or a constant is out of range.
pub fn say_width(words: &mut Words, scene: &Scene<'_>, tree: &Tree) {
    let number = number_in(scene.found()).unwrap_or(0);
    if keyword_in(scene.before(1)) == Some(Keyword::Bits) {
        words.say("a field can't have ");
        words.message.number(number);
        words.say(" bits");
        words.hint("`bits N` takes N from 1 to 32");
        return;
    }
    words.say("the constant ");
    words.message.number(number);
    words.say(" doesn't fit its field");
    if let Some(field) = narrow_field(scene, tree) {
        hint_width(words, field);
    }
}

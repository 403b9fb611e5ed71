// The specification of structures: a pool and a set for each, a rule for each address, and that no
// address is illegal.
use crate::reading::{Member, Structure, is_known};
use crate::spelling::push_names;
use dsr_wording::Text;

// The structure to which a member leads, of those that are known.
fn known_target<'a>(structures: &[Structure], member: &'a Member) -> Option<&'a str> {
    match &member.target {
        Some(target) if is_known(structures, target.as_str()) => Some(target.as_str()),
        _ => None,
    }
}

// Appends bytes that belong to no field.
fn push_gap(text: &mut Text, bytes: u64) {
    if bytes > 0 {
        text.push("  skip ");
        text.number(bytes);
        text.push(";\n");
    }
}

// Appends how many entries an array has.
fn push_count(text: &mut Text, count: u64) {
    text.push("[");
    text.number(count);
    text.push("]");
}

// Appends a member as a field, up to where it leads.
fn push_declared(text: &mut Text, member: &Member) {
    text.push("  u");
    text.number(member.width.saturating_mul(8));
    push_names(text, " {}", member.name.as_str());
    if let Some(count) = member.count {
        push_count(text, count);
    }
}

// Appends a member as a field.
fn push_member(text: &mut Text, structures: &[Structure], member: &Member) {
    push_declared(text, member);
    if let Some(target) = known_target(structures, member) {
        push_names(text, " -> {s}", target);
    }
    text.push(";\n");
}

// How many bytes a member has.
fn bytes_of(member: &Member) -> u64 {
    member.width.saturating_mul(member.count.unwrap_or(1))
}

// Appends the members of a structure, and tells where they end. Members that can be no fields are
// gaps, and so are all but the first of those that share bytes.
fn push_members(text: &mut Text, structures: &[Structure], structure: &Structure) -> u64 {
    let mut end = 0u64;
    for member in &structure.members {
        if member.start >= end {
            push_gap(text, member.start.saturating_sub(end));
            push_member(text, structures, member);
            end = member.start.saturating_add(bytes_of(member));
        }
    }
    end
}

// Appends a structure.
fn push_structure(text: &mut Text, structures: &[Structure], structure: &Structure) {
    push_names(text, "structure {} ", structure.name.as_str());
    text.push("{\n");
    let end = push_members(text, structures, structure);
    push_gap(text, structure.size.saturating_sub(end));
    text.push("}\n");
}

// The address of the image's first byte, until somebody says which it is: 0 is none, and no
// program has anything in its first page.
const BASE: u64 = 4096;

// Appends a pool of one record, which begins at a byte.
fn push_pool(text: &mut Text, structure: &Structure, start: u64) {
    push_names(text, "pool {s} : {}[1] at ", structure.name.as_str());
    text.number(start);
    text.push(" codes ");
    text.number(start.saturating_add(BASE));
    text.push(" step ");
    text.number(structure.size);
    text.push(" none 0;\n");
}

// Appends the pools, one record each, one behind the other.
fn push_pools(text: &mut Text, structures: &[Structure]) {
    let mut start = 0u64;
    for structure in structures {
        push_pool(text, structure, start);
        start = start.saturating_add(structure.size);
    }
}

// Whether a structure has an address of one that is known.
fn has_address(structures: &[Structure], structure: &Structure) -> bool {
    for member in &structure.members {
        if known_target(structures, member).is_some() {
            return true;
        }
    }
    false
}

// Appends the sets of a structure: its records, and those with an illegal address.
fn push_own_sets(text: &mut Text, structures: &[Structure], structure: &Structure) {
    let name = structure.name.as_str();
    push_names(text, "set {_set} of {s};\n", name);
    if has_address(structures, structure) {
        push_names(text, "set {_astray} of {s};\n", name);
    }
}

// Appends the sets.
fn push_sets(text: &mut Text, structures: &[Structure]) {
    for structure in structures {
        push_own_sets(text, structures, structure);
    }
}

// Appends where a rule begins: at a record, and at an entry where its field is an array.
fn push_source(text: &mut Text, structure: &Structure, member: &Member) {
    push_names(text, "rule x in {_set}", structure.name.as_str());
    if member.count.is_some() {
        push_names(text, ", k in {}", member.name.as_str());
    }
}

// Appends the field of a record, or its entry where it is an array.
fn push_field(text: &mut Text, member: &Member) {
    push_names(text, "x.{}", member.name.as_str());
    if member.count.is_some() {
        text.push("[k]");
    }
}

// Appends the rules of an address of a structure.
fn push_address(text: &mut Text, structure: &Structure, member: &Member, target: &str) {
    push_source(text, structure, member);
    text.push(" => ");
    push_field(text, member);
    push_names(text, " in {_set};\n", target);
    push_source(text, structure, member);
    text.push(" when illegal(");
    push_field(text, member);
    push_names(text, ") => x in {_astray};\n", structure.name.as_str());
}

// Appends the rules of a structure.
fn push_rules(text: &mut Text, structures: &[Structure], structure: &Structure) {
    for member in &structure.members {
        if let Some(target) = known_target(structures, member) {
            push_address(text, structure, member, target);
        }
    }
}

// The constraint that no address of a structure is illegal.
const LEGAL: &str = "constraint {_legal} : forall x in {_astray} : not x in {_astray};\n";

const HEADING: &str = "\
# From what gdb printed. Of each pool set three numbers: how many records there are, behind `at` the
# byte of the image at which the first one begins, and behind `codes` its address in the program.
# All records of the first structure are there, and of the others those to which addresses lead.
# Then say what else has to hold.
version 2;
order little;
structure Head {
}
";

// The rule by which all records of the first structure are there.
const FIRST: &str = "rule head, k in pool {s} => {s}[k] in {_set};\n";

// Appends the rules, and then the constraints.
fn push_meaning(text: &mut Text, structures: &[Structure]) {
    for structure in structures {
        push_rules(text, structures, structure);
    }
    for structure in structures {
        if has_address(structures, structure) {
            push_names(text, LEGAL, structure.name.as_str());
        }
    }
}

/// Appends a first specification of structures, and tells whether there are any.
pub fn push_specification(text: &mut Text, structures: &[Structure]) -> bool {
    let Some(first) = structures.first() else {
        return false;
    };
    text.push(HEADING);
    for structure in structures {
        push_structure(text, structures, structure);
    }
    push_pools(text, structures);
    push_sets(text, structures);
    push_names(text, FIRST, first.name.as_str());
    push_meaning(text, structures);
    true
}

// Faults by their numbers.
use dsr_parse::SyntaxFault;
use dsr_spec::SpecFault;
use dsr_test_text::Lines;

/// Why a text isn't one of the grammar.
pub fn add_syntax_fault(lines: &mut Lines, fault: SyntaxFault) {
    match fault {
        SyntaxFault::Token(place) => lines.part(" syntax 1 ", place),
        SyntaxFault::Expected(place) => lines.part(" syntax 2 ", place),
        SyntaxFault::Limit(place) => lines.part(" syntax 3 ", place),
        SyntaxFault::NoMemory => lines.word(" no memory"),
    }
    lines.word("\n");
}

/// Why a tree has no meaning.
pub fn add_spec_fault(lines: &mut Lines, fault: SpecFault) {
    match fault {
        SpecFault::At { kind, place } => {
            lines.part(" spec ", u64::from(kind));
            lines.part(" ", place);
        }
        SpecFault::NoMemory => lines.word(" no memory"),
    }
    lines.word("\n");
}

// What is wrong with a text.

/// What is wrong with a text, for a person.
#[derive(Drop)]
pub struct Diagnosis {
    /// The place of the first byte that is meant, counted from 0.
    pub place: usize,
    /// How many bytes are meant; 0 at the text's end.
    pub length: usize,
    /// What is wrong, in words without an end.
    pub message: String,
    /// What may help, in words without an end.
    pub hints: Vec<String>,
}

// Laws on texts, each the contract of a function that does nothing.
ghost use Rattle.std.specs.Prelude.{◌≡◌, ℕ, List};
ghost use Rattle.dsr_tree.specs.Trees.{TreeShape};
ghost use Rattle.dsr_syntax_theory.specs.Parsing.{IsTreeOf};
ghost use Rattle.dsr_parse.specs.Faults.{HasFault};
ghost use Rattle.dsr_parse.specs.declared.parser.SyntaxFault.{SyntaxFault};

/// A text has at most one fault, and a text with a fault has no tree.
pub fn faults_are_unique()
    ensures once { (text : List ℕ) (f g : SyntaxFault) → HasFault text f → HasFault text g → f ≡ g }
    ensures no_tree { (text : List ℕ) (f : SyntaxFault) (tree : TreeShape) → HasFault text f →
        IsTreeOf text tree → ⊥ }
{}

/// A text has at most one tree, with the places of its tokens.
pub fn trees_are_unique()
    ensures { (text : List ℕ) (s t : TreeShape) → IsTreeOf text s → IsTreeOf text t → s ≡ t }
{}

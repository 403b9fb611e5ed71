// The facts that constraints give.
ghost use Rattle.std.specs.Prelude.{◌≡◌, ◌≤◌, ◌^◌, ◌++◌, [], ◌∷◌, IfOk, length, option_map};
ghost use Rattle.dsr_meaning.specs.Lists.{each_at};
ghost use Rattle.dsr_update_theory.specs.Facts as said;
ghost use Rattle.dsr_facts.specs.Claims.{claimed};

use crate::claims::{Claim, claim_of};
use dsr_ir::{Constraint, NoMemory, Seq, SetDecl, Spec};
use std::alloc::Global;

/// What the constraints before one of them say of sets and relations.
#[derive(Drop)]
pub struct Facts {
    /// Relations under which each record has one source at most.
    pub injective: Seq<u32>,
    /// Pairs of sets that have no member in common, both ways.
    pub exclusive: Seq<(u32, u32)>,
    /// Pairs of relations of which what has a source under one has none under the other, both ways.
    pub apart: Seq<(u32, u32)>,
    /// The constraints from which the facts come.
    pub from: Seq<u32>,
}

// The same while they are being gathered.
#[derive(Drop)]
struct Gathered {
    injective: Vec<u32>,
    exclusive: Vec<(u32, u32)>,
    apart: Vec<(u32, u32)>,
    from: Vec<u32>,
}

impl Gathered {
    // Adds what the constraint with this number says, if it says anything.
    fn note(&mut self, number: u32, claim: Option<Claim>) -> Result<(), NoMemory>
        ensures injective { IfOk result (λ _. self.new.injective.items
            ≡ self.old.injective.items ++ said.injective_by (option_map claimed claim)) }
        ensures exclusive { IfOk result (λ _. self.new.exclusive.items
            ≡ self.old.exclusive.items ++ said.exclusive_by (option_map claimed claim)) }
        ensures apart { IfOk result (λ _. self.new.apart.items
            ≡ self.old.apart.items ++ said.apart_by (option_map claimed claim)) }
        ensures from { IfOk result (λ _. self.new.from.items
            ≡ self.old.from.items ++ said.giver_by number (option_map claimed claim)) }
    {
        let Some(claim) = claim else {
            return Ok(());
        };
        self.from.push(number)?;
        match claim {
            Claim::Injective(rel) => {
                self.injective.push(rel)?;
                Ok(())
            }
            Claim::Exclusive(a, b) => push_both(&mut self.exclusive, a, b),
            Claim::Apart(p, q) => push_both(&mut self.apart, p, q),
        }
    }
}

// Adds a pair both ways.
fn push_both(pairs: &mut Vec<(u32, u32)>, a: u32, b: u32) -> Result<(), NoMemory>
    ensures { IfOk result (λ _. pairs.new.items ≡ pairs.old.items ++ (a, b) ∷ (b, a) ∷ []) }
{
    pairs.push((a, b))?;
    pairs.push((b, a))?;
    Ok(())
}

// Adds a set with its complement, where the set is declared as one.
fn push_complement(
    pairs: &mut Vec<(u32, u32)>,
    set: u32,
    declared: &SetDecl,
) -> Result<(), NoMemory>
    ensures { IfOk result (λ _. pairs.new.items
        ≡ pairs.old.items ++ said.complement_by set declared.now) }
{
    match declared.except {
        Some(base) => push_both(pairs, set, base),
        None => Ok(()),
    }
}

// The pairs of a set and its complement.
fn complements(alloc: Global, spec: &Spec) -> Result<Vec<(u32, u32)>, NoMemory>
    requires { length spec.now.base.sets ≤ 2 ^ 32 }
    ensures { IfOk result (λ pairs. pairs.items
        ≡ each_at said.complement_by 0 spec.now.base.sets) }
{
    let mut pairs = Vec::new(alloc);
    for (set, declared) in spec.base.sets.items().iter().enumerate() {
        push_complement(&mut pairs, set as u32, declared)?;
    }
    Ok(pairs)
}

// The constraints that are declared before the one with this number.
fn earlier(spec: &Spec, constraint: u32) -> &[Constraint]
    ensures { result.now ≡ said.earlier spec.now constraint }
{
    let all = spec.constraints.items();
    &all[..all.len().min(constraint as usize)]
}

/// The facts that the constraint with this number uses: those of all constraints that are declared
/// before it, in order, and that a set and its complement have no member in common.
pub fn facts_before(alloc: Global, spec: &Spec, constraint: u32) -> Result<Facts, NoMemory>
    requires few { length spec.now.constraints ≤ 2 ^ 32 }
    requires sets { length spec.now.base.sets ≤ 2 ^ 32 }
    ensures injective { IfOk result (λ f. f.injective ≡ said.injective spec.now constraint) }
    ensures exclusive { IfOk result (λ f. f.exclusive ≡ said.exclusive spec.now constraint) }
    ensures apart { IfOk result (λ f. f.apart ≡ said.apart spec.now constraint) }
    ensures from { IfOk result (λ f. f.from ≡ said.from spec.now constraint) }
{
    let exclusive = complements(alloc, spec)?;
    let mut found = Gathered {
        injective: Vec::new(alloc),
        exclusive,
        apart: Vec::new(alloc),
        from: Vec::new(alloc),
    };
    for (number, declared) in earlier(spec, constraint).iter().enumerate() {
        found.note(number as u32, claim_of(spec, declared))?;
    }
    Ok(Facts {
        injective: Seq::new(found.injective),
        exclusive: Seq::new(found.exclusive),
        apart: Seq::new(found.apart),
        from: Seq::new(found.from),
    })
}

// How the graph is built.
ghost use Rattle.std.specs.Prelude.{◌≡◌, All, IfOk};
ghost use Rattle.dsr_graph.specs.Told.{AreFactsOf};
ghost use Rattle.dsr_graph.specs.Asking.{AllCauses, AllExcuses, AllFacts, AllOwners, AreOwnCauses};
ghost use Rattle.dsr_graph.specs.Graphs.{AreListingsOf, IsGraphOf, IsNodeOf};
ghost use Rattle.dsr_graph.specs.Kinds.{IsFirstIn};
ghost use Rattle.dsr_update_theory.specs.Facts as said;
ghost use Rattle.dsr_meaning.specs.Typed.{IsTyped};
ghost use Rattle.dsr_compensate.specs.Owned.{IsSound, owner_of};

use crate::causes::{constraint_causes, literal_causes};
use crate::excuses::Excuses;
use crate::graphs::{Graph, Node};
use crate::kinds::{First, kinds_of};
use crate::listings::{Asked, Listing};
use dsr_compensate::Owner;
use dsr_facts::{Facts, facts_before};
use dsr_graph_theory::Cause;
use dsr_ir::{NoMemory, Seq, Spec};
use std::alloc::Global;

// The facts that each constraint uses.
fn all_facts(alloc: Global, spec: &Spec) -> Result<Vec<Facts>, NoMemory>
    requires typed { IsTyped spec.now }
    ensures { IfOk result (λ facts. AllFacts spec.now facts.items) }
{
    let mut facts = Vec::new(alloc);
    for number in 0..spec.constraints.items().len() {
        let its = facts_before(alloc, spec, number as u32)?;
        facts.push(its)?;
    }
    Ok(facts)
}

// Each constraint with what its updates are judged by.
fn all_owners<'a>(
    alloc: Global,
    spec: &'a Spec,
    facts: &'a [Facts],
) -> Result<Vec<Owner<'a>>, NoMemory>
    requires typed { IsTyped spec.now }
    requires facts { AllFacts spec.now facts.now }
    ensures { IfOk result (λ owners. AllOwners spec.now owners.items) }
{
    let mut owners = Vec::new(alloc);
    for (number, constraint) in spec.constraints.items().iter().enumerate() {
        let owner = Owner::new(spec, &facts[number], number as u32, constraint);
        owners.push(owner)?;
    }
    Ok(owners)
}

// What may break each constraint.
fn all_causes(alloc: Global, spec: &Spec) -> Result<Vec<Seq<Cause>>, NoMemory>
    requires typed { IsTyped spec.now }
    ensures { IfOk result (λ causes. AllCauses spec.now causes.items) }
{
    let mut causes = Vec::new(alloc);
    for constraint in spec.constraints.items() {
        let its = constraint_causes(alloc, spec, constraint)?;
        causes.push(Seq::new(its))?;
    }
    Ok(causes)
}

// What excuses changes by updates of the one constraint that may break the others.
fn all_excuses(
    alloc: Global,
    facts: &Facts,
    owner: &Owner,
    owners: &[Owner],
) -> Result<Vec<Excuses>, NoMemory>
    requires sound { IsSound owner.now }
    requires facts { AreFactsOf (owner_of owner.now) facts.now }
    requires owners { AllOwners (owner_of owner.now).spec owners.now }
    ensures { IfOk result (λ excuses. AllExcuses (owner_of owner.now) excuses.items) }
{
    let mut all = Vec::new(alloc);
    for other in owners {
        all.push(Excuses::new(facts, owner, other))?;
    }
    Ok(all)
}

// What may turn a literal of each kind false.
fn own_causes(alloc: Global, owner: &Owner, firsts: &[First]) -> Result<Vec<Seq<Cause>>, NoMemory>
    requires sound { IsSound owner.now }
    requires firsts { All (IsFirstIn (owner_of owner.now).constraint) firsts.now }
    ensures { IfOk result (λ causes. AreOwnCauses (owner_of owner.now).spec.base firsts.now causes.items) }
{
    let mut own = Vec::new(alloc);
    for first in firsts {
        let causes = literal_causes(
            alloc,
            owner.spec(),
            &owner.constraint().quant,
            &first.literal,
        )?;
        own.push(Seq::new(causes))?;
    }
    Ok(own)
}

// What is listed for each kind of the constraint's literals, whose first ones these are.
fn kind_listings(
    alloc: Global,
    facts: &Facts,
    owner: &Owner,
    owners: &[Owner],
    causes: &[Seq<Cause>],
    firsts: &[First],
) -> Result<Vec<Listing>, NoMemory>
    requires sound { IsSound owner.now }
    requires facts { AreFactsOf (owner_of owner.now) facts.now }
    requires owners { AllOwners (owner_of owner.now).spec owners.now }
    requires causes { AllCauses (owner_of owner.now).spec causes.now }
    requires firsts { All (IsFirstIn (owner_of owner.now).constraint) firsts.now }
    ensures { IfOk result (λ listings. AreListingsOf (owner_of owner.now) firsts.now listings.items) }
{
    let own = own_causes(alloc, owner, firsts)?;
    let excuses = all_excuses(alloc, facts, owner, owners)?;
    let asked = Asked {
        owner,
        firsts,
        own: &own,
        excuses: &excuses,
        causes,
    };
    asked.listings(alloc)
}

fn node(
    alloc: Global,
    facts: &Facts,
    owner: &Owner,
    owners: &[Owner],
    causes: &[Seq<Cause>],
) -> Result<Node, NoMemory>
    requires sound { IsSound owner.now }
    requires facts { AreFactsOf (owner_of owner.now) facts.now }
    requires from { facts.now.from ≡ said.from (owner_of owner.now).spec (owner_of owner.now).number }
    requires owners { AllOwners (owner_of owner.now).spec owners.now }
    requires causes { AllCauses (owner_of owner.now).spec causes.now }
    ensures { IfOk result (IsNodeOf (owner_of owner.now)) }
{
    let from = Seq::new(Vec::from_slice(alloc, facts.from.items())?);
    let kinds = kinds_of(alloc, owner.spec(), owner.constraint())?;
    let listings = kind_listings(alloc, facts, owner, owners, causes, &kinds.firsts)?;
    Ok(Node {
        kinds,
        listings,
        from,
    })
}

// The graph whose nodes are those of all constraints, in order.
fn of_owners(
    alloc: Global,
    spec: &Spec,
    facts: &[Facts],
    owners: &[Owner],
    causes: &[Seq<Cause>],
) -> Result<Graph, NoMemory>
    requires facts { AllFacts spec.now facts.now }
    requires owners { AllOwners spec.now owners.now }
    requires causes { AllCauses spec.now causes.now }
    ensures { IfOk result (IsGraphOf spec.now) }
{
    let mut nodes = Vec::new(alloc);
    for (number, owner) in owners.iter().enumerate() {
        let next = node(alloc, &facts[number], owner, owners, causes)?;
        nodes.push(next)?;
    }
    Ok(Graph { nodes })
}

fn of_facts(alloc: Global, spec: &Spec, facts: &[Facts]) -> Result<Graph, NoMemory>
    requires typed { IsTyped spec.now }
    requires facts { AllFacts spec.now facts.now }
    ensures { IfOk result (IsGraphOf spec.now) }
{
    let owners = all_owners(alloc, spec, facts)?;
    let causes = all_causes(alloc, spec)?;
    of_owners(alloc, spec, facts, &owners, &causes)
}

/// The graph of the specification.
pub fn graph(alloc: Global, spec: &Spec) -> Result<Graph, NoMemory>
    requires typed { IsTyped spec.now }
    ensures { IfOk result (IsGraphOf spec.now) }
{
    let facts = all_facts(alloc, spec)?;
    of_facts(alloc, spec, &facts)
}

// The templates that are tried for a literal, with the writes that may compensate them.
ghost use Rattle.std.specs.Prelude.{◌≡◌, ◌++◌, ◌∷◌, [], IfOk, List, OnOk, map};
ghost use Rattle.std.specs.List.{flat_map};
ghost use Rattle.dsr_compensate.specs.Taking.{AreTakenOf, AreWell, ones_of, pairs_of, templates_of, twos_of};
ghost use Rattle.dsr_ir.specs.declared.updates.Template.{Template as TemplateOf};
ghost use Rattle.dsr_graph_theory.specs.Lists.{AreCompensable};
ghost use Rattle.dsr_graph_theory.specs.Candidates.{AreCompensations};
ghost use Rattle.dsr_meaning.specs.Typed.{IsTypedAtom};
ghost use Rattle.dsr_compensate.specs.Owned.{IsSound, owner_of};

use crate::judging::Judged;
use crate::listing::{take, take_ones, take_twos};
use crate::owner::Owner;
use crate::preventing::compensations;
use dsr_ir::{Atom, NoMemory, Seq, Template, TryClone, Write};
use std::alloc::Global;

/// A template that is tried, with the writes that may compensate it.
pub struct Compensable {
    pub template: Template,
    pub writes: Seq<Write>,
}

impl Drop for Compensable {
    fn drop(self) {
        let Compensable {
            template: _,
            writes: _,
        } = self;
    }
}

// The template with the writes that may compensate it.
fn with_compensations(
    alloc: Global,
    owner: &Owner,
    template: &Template,
) -> Result<Compensable, NoMemory>
    requires sound { IsSound owner.now }
    ensures template { IfOk result (λ c. c.template ≡ template.now) }
    ensures writes { IfOk result (λ c. AreCompensations (owner_of owner.now) template.now c.writes) }
{
    let writes = Seq::new(compensations(alloc, owner, template)?);
    let template = TryClone::clone(template, alloc)?;
    Ok(Compensable { template, writes })
}

/// Each of the templates with the writes that may compensate it.
pub fn all_compensable(
    alloc: Global,
    owner: &Owner,
    tried: &[Template],
) -> Result<Vec<Compensable>, NoMemory>
    requires sound { IsSound owner.now }
    ensures { IfOk result (λ all. AreCompensable (owner_of owner.now) tried.now (pairs_of all.items)) }
{
    let mut all = Vec::new(alloc);
    for template in tried {
        let next = with_compensations(alloc, owner, template)?;
        all.push(next)?;
    }
    Ok(all)
}

/// Takes the templates as they are.
pub fn take_plain(
    alloc: Global,
    owner: &Owner,
    atom: &Atom,
    tried: &[Compensable],
    listed: &mut Vec<Judged>,
) -> Result<(), NoMemory>
    requires sound { IsSound owner.now }
    requires atom { IsTypedAtom owner.now.spec.now owner.now.constraint.now.quant atom.now }
    requires well { AreWell (owner_of owner.now) listed.old.items }
    ensures well { OnOk result (AreWell (owner_of owner.now) listed.new.items) }
    ensures taken { OnOk result ((all : List TemplateOf)
        → AreTakenOf (owner_of owner.now) atom.now all (templates_of listed.old.items)
        → AreTakenOf (owner_of owner.now) atom.now (all ++ map (λ c. c.template) tried.now)
        (templates_of listed.new.items)) }
{
    for compensable in tried {
        let next = TryClone::clone(&compensable.template, alloc)?;
        take(alloc, owner, atom, next, listed)?;
    }
    Ok(())
}

/// Takes the templates, each with each one of its writes.
pub fn take_all_ones(
    alloc: Global,
    owner: &Owner,
    atom: &Atom,
    tried: &[Compensable],
    listed: &mut Vec<Judged>,
) -> Result<(), NoMemory>
    requires sound { IsSound owner.now }
    requires atom { IsTypedAtom owner.now.spec.now owner.now.constraint.now.quant atom.now }
    requires well { AreWell (owner_of owner.now) listed.old.items }
    ensures well { OnOk result (AreWell (owner_of owner.now) listed.new.items) }
    ensures taken { OnOk result ((all : List TemplateOf)
        → AreTakenOf (owner_of owner.now) atom.now all (templates_of listed.old.items)
        → AreTakenOf (owner_of owner.now) atom.now (all ++ flat_map ones_of tried.now)
        (templates_of listed.new.items)) }
{
    for compensable in tried {
        let writes = compensable.writes.items();
        take_ones(alloc, owner, atom, &compensable.template, writes, listed)?;
    }
    Ok(())
}

/// Takes the templates, each with each two of its writes.
pub fn take_all_twos(
    alloc: Global,
    owner: &Owner,
    atom: &Atom,
    tried: &[Compensable],
    listed: &mut Vec<Judged>,
) -> Result<(), NoMemory>
    requires sound { IsSound owner.now }
    requires atom { IsTypedAtom owner.now.spec.now owner.now.constraint.now.quant atom.now }
    requires well { AreWell (owner_of owner.now) listed.old.items }
    ensures well { OnOk result (AreWell (owner_of owner.now) listed.new.items) }
    ensures taken { OnOk result ((all : List TemplateOf)
        → AreTakenOf (owner_of owner.now) atom.now all (templates_of listed.old.items)
        → AreTakenOf (owner_of owner.now) atom.now (all ++ flat_map twos_of tried.now)
        (templates_of listed.new.items)) }
{
    for compensable in tried {
        let writes = compensable.writes.items();
        take_twos(alloc, owner, atom, &compensable.template, writes, listed)?;
    }
    Ok(())
}

/// Takes the templates as they are, then with each one of their writes, and then with each two.
pub fn take_all(
    alloc: Global,
    owner: &Owner,
    atom: &Atom,
    tried: &[Compensable],
    listed: &mut Vec<Judged>,
) -> Result<(), NoMemory>
    requires sound { IsSound owner.now }
    requires atom { IsTypedAtom owner.now.spec.now owner.now.constraint.now.quant atom.now }
    requires well { AreWell (owner_of owner.now) listed.old.items }
    ensures well { OnOk result (AreWell (owner_of owner.now) listed.new.items) }
    ensures taken { OnOk result ((all : List TemplateOf)
        → AreTakenOf (owner_of owner.now) atom.now all (templates_of listed.old.items)
        → AreTakenOf (owner_of owner.now) atom.now
        (((all ++ map (λ c. c.template) tried.now) ++ flat_map ones_of tried.now)
        ++ flat_map twos_of tried.now) (templates_of listed.new.items)) }
{
    take_plain(alloc, owner, atom, tried, listed)?;
    take_all_ones(alloc, owner, atom, tried, listed)?;
    take_all_twos(alloc, owner, atom, tried, listed)?;
    Ok(())
}

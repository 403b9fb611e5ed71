// Constraints, and the whole text.
ghost use Rattle.std.specs.Prelude.{IfOk, IfErr, ◌∷◌, []};
ghost use Rattle.dsr_tree.specs.Trees as shapes;
ghost use Rattle.dsr_syntax_theory.specs.Grammar as grammar;
ghost use Rattle.dsr_syntax_theory.specs.Phrases.{in_turn};
ghost use Rattle.dsr_syntax_theory.specs.Syntax.{Many};
ghost use Rattle.dsr_syntax_theory.specs.TreeTexts as texts;
ghost use Rattle.dsr_parse.specs.Ends as ends;
ghost use Rattle.dsr_parse.specs.Reading.{Reads, Halts, said_constraint};

use crate::reader::{Reader, Stop, both};
use dsr_ir::{Order, Seq};
use dsr_tree::{
    Binder, Constraint, Formula, Fresh, Keyword, PlacedNumber, Quantifier, Relation, Rule, Set,
    Sign, Tree,
};

// What stands behind the pools of a specification.
#[derive(Drop)]
pub struct TreeEnd {
    pub sets: Seq<Set>,
    pub relations: Seq<Relation>,
    pub rules: RulesEnd,
}

// What stands behind the relations.
#[derive(Drop)]
pub struct RulesEnd {
    pub supplies: Seq<Fresh>,
    pub rules: Seq<Rule>,
    pub constraints: Seq<Constraint>,
}

impl<'a> Reader<'a> {
    // Reads the tree of a whole text; what stands behind it is left.
    pub fn tree(&mut self) -> Result<Tree, Stop>
        ensures ok { IfOk result (λ t. Reads grammar.spec
            (texts.tree_text (shapes.tree_shape t)) self.old self.new) }
        ensures err { IfErr result (λ e. Halts (grammar.spec ∷ []) self.old e) }
    {
        let (place, version) = self.version()?;
        let order = self.order()?;
        let structures = self.structures()?;
        let pools = self.pools()?;
        let end = self.tree_end()?;
        Ok(Tree {
            place,
            version,
            order,
            structures: Seq::new(structures),
            pools: Seq::new(pools),
            sets: end.sets,
            relations: end.relations,
            supplies: end.rules.supplies,
            rules: end.rules.rules,
            constraints: end.rules.constraints,
        })
    }

    // Reads what stands behind the pools.
    fn tree_end(&mut self) -> Result<TreeEnd, Stop>
        ensures ok { IfOk result (λ t. Reads ends.tree_end (ends.tree_end_text t) self.old self.new) }
        ensures err { IfErr result (λ e. Halts (ends.tree_end ∷ []) self.old e) }
    {
        let sets = self.sets()?;
        let relations = self.relations()?;
        let rules = self.rules_end()?;
        Ok(TreeEnd {
            sets: Seq::new(sets),
            relations: Seq::new(relations),
            rules,
        })
    }

    // Reads what stands behind the relations.
    fn rules_end(&mut self) -> Result<RulesEnd, Stop>
        ensures ok { IfOk result (λ r. Reads ends.rules_end (ends.rules_end_text r) self.old self.new) }
        ensures err { IfErr result (λ e. Halts (ends.rules_end ∷ []) self.old e) }
    {
        let supplies = self.supplies()?;
        let rules = self.rules()?;
        let constraints = self.constraints()?;
        Ok(RulesEnd {
            supplies: Seq::new(supplies),
            rules: Seq::new(rules),
            constraints: Seq::new(constraints),
        })
    }

    // Reads the version's declaration, and gives its place and the number.
    fn version(&mut self) -> Result<(u64, PlacedNumber), Stop>
        ensures ok { IfOk result (λ v. Reads grammar.version (texts.version_line v.0 v.1) self.old self.new) }
        ensures err { IfErr result (λ e. Halts (grammar.version ∷ []) self.old e) }
    {
        let place = self.word(Keyword::Version)?;
        let number = self.version_number()?;
        self.sign(Sign::Semicolon)?;
        Ok((place, number))
    }

    fn order(&mut self) -> Result<Order, Stop>
        ensures ok { IfOk result (λ order. Reads grammar.order (texts.order_text order) self.old self.new) }
        ensures err { IfErr result (λ e. Halts (grammar.order ∷ []) self.old e) }
    {
        self.word(Keyword::Order)?;
        let order = self.endian()?;
        self.sign(Sign::Semicolon)?;
        Ok(order)
    }

    fn endian(&mut self) -> Result<Order, Stop>
        ensures ok { IfOk result (λ order. Reads grammar.endian (texts.endian_text order) self.old self.new) }
        ensures err { IfErr result (λ e. Halts (grammar.endian ∷ []) self.old e) }
    {
        if self.take_word(Keyword::Little).is_some() {
            return Ok(Order::Little);
        }
        self.word(Keyword::Big)?;
        Ok(Order::Big)
    }

    fn constraints(&mut self) -> Result<Vec<Constraint>, Stop>
        ensures ok { IfOk result (λ constraints. Reads (Many grammar.constraint)
            (in_turn said_constraint constraints.items) self.old self.new) }
        ensures err { IfErr result (λ e. Halts (Many grammar.constraint ∷ []) self.old e) }
    {
        let mut constraints = Vec::new(self.alloc);
        while self.is_word(Keyword::Constraint) {
            constraints.push(self.constraint()?)?;
        }
        Ok(constraints)
    }

    fn constraint(&mut self) -> Result<Constraint, Stop>
        ensures ok { IfOk result (λ c. Reads grammar.constraint
            (texts.constraint_text (shapes.constraint_shape c)) self.old self.new) }
        ensures err { IfErr result (λ e. Halts (grammar.constraint ∷ []) self.old e) }
    {
        let place = self.word(Keyword::Constraint)?;
        let name = self.name()?;
        self.starting_sign(Sign::Colon)?;
        let (quantifier, formula) = self.constraint_end()?;
        Ok(Constraint {
            place,
            name,
            quantifier,
            formula,
        })
    }

    // Reads what stands behind the colon of a constraint.
    fn constraint_end(&mut self) -> Result<(Option<Quantifier>, Formula), Stop>
        ensures ok { IfOk result (λ c. Reads ends.constraint_end
            (ends.constraint_end_text c.0 c.1) self.old self.new) }
        ensures err { IfErr result (λ e. Halts (ends.constraint_end ∷ []) self.old e) }
    {
        let quantifier = self.quantifier()?;
        let end = both(quantifier, self.formula(0))?;
        self.ended(end, Sign::Semicolon)
    }

    // Reads the quantifier of a constraint, where there is one.
    fn quantifier(&mut self) -> Result<Option<Quantifier>, Stop>
        ensures ok { IfOk result (λ q. Reads (grammar.maybe grammar.quantifier)
            (texts.maybe_text texts.quantifier_text q) self.old self.new) }
        ensures err { IfErr result (λ e. Halts (grammar.maybe grammar.quantifier ∷ []) self.old e) }
    {
        let Some(place) = self.take_word(Keyword::Forall) else {
            return Ok(None);
        };
        let binder = self.binder()?;
        let (binder, symbol) = both(binder, self.name_behind(Keyword::In))?;
        self.starting_sign(Sign::Colon)?;
        Ok(Some(Quantifier {
            place,
            binder,
            symbol,
        }))
    }

    fn binder(&mut self) -> Result<Binder, Stop>
        ensures ok { IfOk result (λ b. Reads grammar.binder (texts.binder_text b) self.old self.new) }
        ensures err { IfErr result (λ e. Halts (grammar.binder ∷ []) self.old e) }
    {
        if self.is_name() {
            return Ok(Binder::One(self.name()?));
        }
        let place = self.sign(Sign::Less)?;
        let first = self.name_before(Sign::Comma)?;
        let second = self.name_before(Sign::Greater)?;
        Ok(Binder::Pair {
            place,
            first,
            second,
        })
    }
}

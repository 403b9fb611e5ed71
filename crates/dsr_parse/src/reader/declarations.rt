// Pools, sets, relations and supplies.
ghost use Rattle.std.specs.Prelude.{IfOk, IfErr, ◌∷◌, []};
ghost use Rattle.dsr_tree.specs.Trees as shapes;
ghost use Rattle.dsr_tree.specs.declared.tokens.Keyword.TheVariants as keyword;
ghost use Rattle.dsr_syntax_theory.specs.Grammar as grammar;
ghost use Rattle.dsr_syntax_theory.specs.Phrases.{in_turn};
ghost use Rattle.dsr_syntax_theory.specs.Syntax.{Many, a_word};
ghost use Rattle.dsr_syntax_theory.specs.TreeTexts as texts;
ghost use Rattle.dsr_parse.specs.Ends as ends;
ghost use Rattle.dsr_parse.specs.Reading.{Reads, Halts, said_pool, said_slot};

use crate::reader::{Reader, Stop, both};
use dsr_ir::Seq;
use dsr_tree::{Expr, Fresh, Keyword, PlacedName, Pool, Relation, Set, Sign, Target, View};

// The expressions of a pool behind its count.
#[derive(Drop)]
pub struct PoolEnd {
    pub slot: Option<Expr>,
    pub start: Expr,
    pub code: Expr,
    pub step: Expr,
    pub none: Expr,
}

// How a pool's references are coded.
#[derive(Drop)]
pub struct PoolCodes {
    pub code: Expr,
    pub step: Expr,
    pub none: Expr,
}

impl<'a> Reader<'a> {
    pub fn pools(&mut self) -> Result<Vec<Pool>, Stop>
        ensures ok { IfOk result (λ pools. Reads (Many grammar.pool)
            (in_turn said_pool pools.items) self.old self.new) }
        ensures err { IfErr result (λ e. Halts (Many grammar.pool ∷ []) self.old e) }
    {
        let mut pools = Vec::new(self.alloc);
        while self.is_word(Keyword::Pool) {
            pools.push(self.pool()?)?;
        }
        Ok(pools)
    }

    fn pool(&mut self) -> Result<Pool, Stop>
        ensures ok { IfOk result (λ p. Reads grammar.pool
            (texts.pool_text (shapes.pool_shape p)) self.old self.new) }
        ensures err { IfErr result (λ e. Halts (grammar.pool ∷ []) self.old e) }
    {
        let place = self.word(Keyword::Pool)?;
        let name = self.name_before(Sign::Colon)?;
        let (name, structure) = both(name, self.name())?;
        let count = self.brackets()?;
        let (count, end) = both(count, self.pool_end())?;
        Ok(Pool {
            place,
            name,
            structure,
            count,
            slot: end.slot,
            start: end.start,
            code: end.code,
            step: end.step,
            none: end.none,
        })
    }

    // Reads what stands behind the count of a pool.
    fn pool_end(&mut self) -> Result<PoolEnd, Stop>
        ensures ok { IfOk result (λ p. Reads ends.pool_end (ends.pool_end_text p) self.old self.new) }
        ensures err { IfErr result (λ e. Halts (ends.pool_end ∷ []) self.old e) }
    {
        let slot = self.slot()?;
        let (slot, start) = both(slot, self.expr_behind(Keyword::At))?;
        let codes = self.pool_codes()?;
        Ok(PoolEnd {
            slot,
            start,
            code: codes.code,
            step: codes.step,
            none: codes.none,
        })
    }

    // Reads how the references of a pool are coded, to the end of the pool.
    fn pool_codes(&mut self) -> Result<PoolCodes, Stop>
        ensures ok { IfOk result (λ p. Reads ends.pool_codes (ends.pool_codes_text p) self.old self.new) }
        ensures err { IfErr result (λ e. Halts (ends.pool_codes ∷ []) self.old e) }
    {
        let code = self.expr_behind(Keyword::Codes)?;
        let step = self.expr_behind(Keyword::Step)?;
        let none = self.expr_behind(Keyword::None)?;
        self.ended(PoolCodes { code, step, none }, Sign::Semicolon)
    }

    // Reads the length of a slot, where it is said.
    fn slot(&mut self) -> Result<Option<Expr>, Stop>
        ensures ok { IfOk result (λ slot. Reads
            (grammar.maybe (grammar.expr_behind (a_word keyword.Slot)))
            (texts.maybe_text said_slot slot) self.old self.new) }
        ensures err { IfErr result
            (λ e. Halts
            (grammar.maybe (grammar.expr_behind (a_word keyword.Slot)) ∷ []) self.old e) }
    {
        if !self.is_word(Keyword::Slot) {
            return Ok(None);
        }
        Ok(Some(self.expr_behind(Keyword::Slot)?))
    }

    pub fn sets(&mut self) -> Result<Vec<Set>, Stop>
        ensures ok { IfOk result (λ sets. Reads (Many grammar.set)
            (in_turn texts.set_text sets.items) self.old self.new) }
        ensures err { IfErr result (λ e. Halts (Many grammar.set ∷ []) self.old e) }
    {
        let mut sets = Vec::new(self.alloc);
        while self.is_word(Keyword::Set) {
            sets.push(self.set()?)?;
        }
        Ok(sets)
    }

    fn set(&mut self) -> Result<Set, Stop>
        ensures ok { IfOk result (λ s. Reads grammar.set (texts.set_text s) self.old self.new) }
        ensures err { IfErr result (λ e. Halts (grammar.set ∷ []) self.old e) }
    {
        let place = self.word(Keyword::Set)?;
        let name = self.name()?;
        let pool = self.name_behind(Keyword::Of)?;
        let view = self.view()?;
        let set = Set {
            place,
            name,
            pool,
            view,
        };
        self.ended(set, Sign::Semicolon)
    }

    // Reads how a set is read, where that is said.
    fn view(&mut self) -> Result<Option<View>, Stop>
        ensures ok { IfOk result (λ view. Reads (grammar.maybe grammar.view)
            (texts.maybe_text texts.view_text view) self.old self.new) }
        ensures err { IfErr result (λ e. Halts (grammar.maybe grammar.view ∷ []) self.old e) }
    {
        if let Some(place) = self.take_word(Keyword::As) {
            let structure = self.name()?;
            return Ok(Some(View::As { place, structure }));
        }
        if let Some(place) = self.take_word(Keyword::Except) {
            let set = self.name()?;
            return Ok(Some(View::Except { place, set }));
        }
        Ok(None)
    }

    pub fn relations(&mut self) -> Result<Vec<Relation>, Stop>
        ensures ok { IfOk result (λ relations. Reads (Many grammar.relation)
            (in_turn texts.relation_text relations.items) self.old self.new) }
        ensures err { IfErr result (λ e. Halts (Many grammar.relation ∷ []) self.old e) }
    {
        let mut relations = Vec::new(self.alloc);
        while self.is_word(Keyword::Relation) {
            relations.push(self.relation()?)?;
        }
        Ok(relations)
    }

    fn relation(&mut self) -> Result<Relation, Stop>
        ensures ok { IfOk result (λ r. Reads grammar.relation (texts.relation_text r) self.old self.new) }
        ensures err { IfErr result (λ e. Halts (grammar.relation ∷ []) self.old e) }
    {
        let place = self.word(Keyword::Relation)?;
        let name = self.name_before(Sign::Colon)?;
        let source = self.var_before(Sign::Arrow)?;
        let target = self.target()?;
        let relation = Relation {
            place,
            name,
            source,
            target,
        };
        self.ended(relation, Sign::Semicolon)
    }

    fn target(&mut self) -> Result<Target, Stop>
        ensures ok { IfOk result (λ t. Reads grammar.target (texts.target_text t) self.old self.new) }
        ensures err { IfErr result (λ e. Halts (grammar.target ∷ []) self.old e) }
    {
        if let Some(place) = self.take_word(Keyword::Number) {
            return Ok(Target::Number { place });
        }
        Ok(Target::Pool(self.name()?))
    }

    pub fn supplies(&mut self) -> Result<Vec<Fresh>, Stop>
        ensures ok { IfOk result (λ supplies. Reads (Many grammar.fresh)
            (in_turn texts.fresh_text supplies.items) self.old self.new) }
        ensures err { IfErr result (λ e. Halts (Many grammar.fresh ∷ []) self.old e) }
    {
        let mut supplies = Vec::new(self.alloc);
        while self.is_word(Keyword::Fresh) {
            supplies.push(self.fresh()?)?;
        }
        Ok(supplies)
    }

    fn fresh(&mut self) -> Result<Fresh, Stop>
        ensures ok { IfOk result (λ f. Reads grammar.fresh (texts.fresh_text f) self.old self.new) }
        ensures err { IfErr result (λ e. Halts (grammar.fresh ∷ []) self.old e) }
    {
        let place = self.word(Keyword::Fresh)?;
        let pool = self.name()?;
        let first = self.name_behind(Keyword::Avoid)?;
        let rest = self.more_names()?;
        let fresh = Fresh {
            place,
            pool,
            first,
            rest: Seq::new(rest),
        };
        self.ended(fresh, Sign::Semicolon)
    }

    // Reads the names behind the first one.
    fn more_names(&mut self) -> Result<Vec<PlacedName>, Stop>
        ensures ok { IfOk result (λ names. Reads (Many grammar.more_name)
            (in_turn texts.more_name_text names.items) self.old self.new) }
        ensures err { IfErr result (λ e. Halts (Many grammar.more_name ∷ []) self.old e) }
    {
        let mut names = Vec::new(self.alloc);
        while self.take_sign(Sign::Comma).is_some() {
            names.push(self.name()?)?;
        }
        Ok(names)
    }
}

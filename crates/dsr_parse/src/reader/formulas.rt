// Formulas and their atoms.
ghost use Rattle.std.specs.Prelude.{◌≡◌, ◌≤◌, IfOk, IfErr, ◌∷◌, []};
ghost use Rattle.dsr_tree.specs.Trees as shapes;
ghost use Rattle.dsr_syntax_theory.specs.Grammar as grammar;
ghost use Rattle.dsr_syntax_theory.specs.Phrases.{in_turn, ◌▸◌};
ghost use Rattle.dsr_syntax_theory.specs.Syntax.{Many, Then};
ghost use Rattle.dsr_syntax_theory.specs.TreeTexts as texts;
ghost use Rattle.dsr_parse.specs.Ends as ends;
ghost use Rattle.dsr_parse.specs.Reading.{Reads, Halts, said_join, said_unit};

use crate::reader::{Reader, Stop, both};
use dsr_tree::{
    Atom, Bound, Compare, Formula, Join, Keyword, Measure, PlacedName, Sign, Size, Unit, Var,
};

impl<'a> Reader<'a> {
    // Reads a formula, inside so many constructs.
    #[cycle(formulas)]
    pub fn formula(&mut self, depth: u64) -> Result<Formula, Stop>
        requires { depth ≤ 32 }
        ensures ok { IfOk result (λ f. Reads (grammar.formula depth)
            (texts.formula_text (shapes.formula_shape f)) self.old self.new) }
        ensures err { IfErr result (λ e. Halts (grammar.formula depth ∷ []) self.old e) }
    {
        let first = self.join(depth)?;
        let (first, rest) = both(first, self.more_joins(depth))?;
        Ok(Formula { first, rest })
    }

    // Reads the joins behind the first one.
    #[cycle(formulas)]
    fn more_joins(&mut self, depth: u64) -> Result<Vec<Join>, Stop>
        requires { depth ≤ 32 }
        ensures ok { IfOk result (λ joins. Reads (Many (grammar.more_join depth))
            (in_turn said_join joins.items) self.old self.new) }
        ensures err { IfErr result (λ e. Halts (Many (grammar.more_join depth) ∷ []) self.old e) }
    {
        let mut joins = Vec::new(self.alloc);
        while self.take_word(Keyword::Or).is_some() {
            joins.push(self.join(depth)?)?;
        }
        Ok(joins)
    }

    #[cycle(formulas)]
    fn join(&mut self, depth: u64) -> Result<Join, Stop>
        requires { depth ≤ 32 }
        ensures ok { IfOk result (λ j. Reads (grammar.join depth)
            (texts.join_text (shapes.join_shape j)) self.old self.new) }
        ensures err { IfErr result (λ e. Halts (grammar.join depth ∷ []) self.old e) }
    {
        let first = self.unit(depth)?;
        let (first, rest) = both(first, self.more_units(depth))?;
        Ok(Join { first, rest })
    }

    // Reads the units behind the first one.
    #[cycle(formulas)]
    fn more_units(&mut self, depth: u64) -> Result<Vec<Unit>, Stop>
        requires { depth ≤ 32 }
        ensures ok { IfOk result (λ units. Reads (Many (grammar.more_unit depth))
            (in_turn said_unit units.items) self.old self.new) }
        ensures err { IfErr result (λ e. Halts (Many (grammar.more_unit depth) ∷ []) self.old e) }
    {
        let mut units = Vec::new(self.alloc);
        while self.take_word(Keyword::And).is_some() {
            units.push(self.unit(depth)?)?;
        }
        Ok(units)
    }

    #[cycle(formulas)]
    fn unit(&mut self, depth: u64) -> Result<Unit, Stop>
        requires { depth ≤ 32 }
        ensures ok { IfOk result (λ u. Reads (grammar.unit depth)
            (texts.unit_text (shapes.unit_shape u)) self.old self.new) }
        ensures err { IfErr result (λ e. Halts (grammar.unit depth ∷ []) self.old e) }
    {
        if self.is_word(Keyword::Not) {
            self.not_unit(depth)
        } else if self.is_word(Keyword::Given) {
            self.given_unit(depth)
        } else if self.is_sign(Sign::OpenParenthesis) {
            self.group(depth)
        } else {
            Ok(Unit::Atom(self.atom()?))
        }
    }

    // Reads a unit behind `not`.
    #[cycle(formulas)]
    fn not_unit(&mut self, depth: u64) -> Result<Unit, Stop>
        requires { depth ≤ 32 }
        ensures ok { IfOk result (λ u. Reads (ends.not_unit depth)
            (texts.unit_text (shapes.unit_shape u)) self.old self.new) }
        ensures err { IfErr result (λ e. Halts (ends.not_unit depth ∷ []) self.old e) }
    {
        let place = self.opening_word(Keyword::Not, depth)?;
        let unit = self.unit(depth + 1)?;
        let unit = Box::new(self.alloc, unit)?;
        Ok(Unit::Not { place, unit })
    }

    // Reads a unit behind `given`.
    #[cycle(formulas)]
    fn given_unit(&mut self, depth: u64) -> Result<Unit, Stop>
        requires { depth ≤ 32 }
        ensures ok { IfOk result (λ u. Reads (ends.given_unit depth)
            (texts.unit_text (shapes.unit_shape u)) self.old self.new) }
        ensures err { IfErr result (λ e. Halts (ends.given_unit depth ∷ []) self.old e) }
    {
        let place = self.opening_word(Keyword::Given, depth)?;
        let unit = self.unit(depth + 1)?;
        let unit = Box::new(self.alloc, unit)?;
        Ok(Unit::Given { place, unit })
    }

    // Reads a formula in parentheses.
    #[cycle(formulas)]
    fn group(&mut self, depth: u64) -> Result<Unit, Stop>
        requires { depth ≤ 32 }
        ensures ok { IfOk result (λ u. Reads (ends.group depth)
            (texts.unit_text (shapes.unit_shape u)) self.old self.new) }
        ensures err { IfErr result (λ e. Halts (ends.group depth ∷ []) self.old e) }
    {
        let place = self.opening_sign(Sign::OpenParenthesis, depth)?;
        let formula = self.formula(depth + 1)?;
        let formula = self.ended(formula, Sign::CloseParenthesis)?;
        let formula = Box::new(self.alloc, formula)?;
        Ok(Unit::Group { place, formula })
    }

    fn atom(&mut self) -> Result<Atom, Stop>
        ensures ok { IfOk result (λ a. Reads grammar.atom (texts.atom_text a) self.old self.new) }
        ensures err { IfErr result (λ e. Halts (grammar.atom ∷ []) self.old e) }
    {
        if self.is_word(Keyword::Size) {
            self.count_atom()
        } else if self.is_sign(Sign::Less) {
            self.pair_atom()
        } else {
            self.var_atom()
        }
    }

    // Reads a size that is compared with a number.
    fn count_atom(&mut self) -> Result<Atom, Stop>
        ensures ok { IfOk result (λ a. Reads grammar.count_atom (texts.atom_text a) self.old self.new) }
        ensures err { IfErr result (λ e. Halts (grammar.count_atom ∷ []) self.old e) }
    {
        let place = self.literal_word(Keyword::Size)?;
        let size = self.size_behind(place)?;
        let (size, bound) = both(size, self.bound())?;
        let number = self.number()?;
        Ok(Atom::Count {
            size,
            bound,
            number,
        })
    }

    // Reads a pair in a relation.
    fn pair_atom(&mut self) -> Result<Atom, Stop>
        ensures ok { IfOk result (λ a. Reads grammar.pair_atom (texts.atom_text a) self.old self.new) }
        ensures err { IfErr result (λ e. Halts (grammar.pair_atom ∷ []) self.old e) }
    {
        let place = self.literal_sign(Sign::Less)?;
        let first = self.var_before(Sign::Comma)?;
        let second = self.var_before(Sign::Greater)?;
        let relation = self.name_behind(Keyword::In)?;
        Ok(Atom::Pair {
            place,
            first,
            second,
            relation,
        })
    }

    // Reads a member of a set, or the comparison of a value.
    fn var_atom(&mut self) -> Result<Atom, Stop>
        ensures ok { IfOk result (λ a. Reads grammar.var_atom (texts.atom_text a) self.old self.new) }
        ensures err { IfErr result (λ e. Halts (grammar.var_atom ∷ []) self.old e) }
    {
        let var = self.literal_var()?;
        if self.take_word(Keyword::In).is_some() {
            let set = self.name()?;
            return Ok(Atom::Member { var, set });
        }
        let (relation, compare, measure) = self.value_end()?;
        Ok(Atom::Value {
            var,
            relation,
            compare,
            measure,
        })
    }

    // Reads what stands behind the variable of a value.
    fn value_end(&mut self) -> Result<(PlacedName, Compare, Measure), Stop>
        ensures ok { IfOk result (λ v. Reads ends.value_end
            (ends.value_end_text v.0 v.1 v.2) self.old self.new) }
        ensures err { IfErr result (λ e. Halts (ends.value_end ∷ []) self.old e) }
    {
        self.sign(Sign::Dot)?;
        let relation = self.name()?;
        let compare = self.compare()?;
        let measure = self.measure()?;
        Ok((relation, compare, measure))
    }

    fn measure(&mut self) -> Result<Measure, Stop>
        ensures ok { IfOk result (λ m. Reads grammar.measure (texts.measure_text m) self.old self.new) }
        ensures err { IfErr result (λ e. Halts (grammar.measure ∷ []) self.old e) }
    {
        if self.is_number() {
            return Ok(Measure::Number(self.number()?));
        }
        let place = self.word(Keyword::Size)?;
        Ok(Measure::Size(self.size_behind(place)?))
    }

    // Reads what is counted, behind the keyword at this place.
    fn size_behind(&mut self, place: u64) -> Result<Size, Stop>
        ensures place { IfOk result (λ s. s.place ≡ place) }
        ensures ok { IfOk result (λ s. Reads grammar.size_tail (texts.size_tail_text s) self.old self.new) }
        ensures err { IfErr result (λ e. Halts (grammar.size_tail ∷ []) self.old e) }
    {
        self.sign(Sign::OpenParenthesis)?;
        let var = self.var()?;
        let part = self.size_part()?;
        self.ended(Size { place, var, part }, Sign::CloseParenthesis)
    }

    // Reads the name behind the variable of a size, where there is one.
    fn size_part(&mut self) -> Result<Option<PlacedName>, Stop>
        ensures ok { IfOk result (λ part. Reads (grammar.maybe grammar.size_part)
            (texts.maybe_text texts.size_part_text part) self.old self.new) }
        ensures err { IfErr result (λ e. Halts (grammar.maybe grammar.size_part ∷ []) self.old e) }
    {
        if self.take_sign(Sign::Dot).is_none() {
            return Ok(None);
        }
        Ok(Some(self.name()?))
    }

    // Reads the variable with which an atom begins.
    fn literal_var(&mut self) -> Result<Var, Stop>
        ensures ok { IfOk result (λ v. Reads (grammar.var_by grammar.literal)
            (texts.var_text v) self.old self.new) }
        ensures err { IfErr result (λ e. Halts (grammar.var_by grammar.literal ∷ []) self.old e) }
    {
        if self.is_word(Keyword::Head) {
            let place = self.literal_word(Keyword::Head)?;
            return Ok(Var::Head { place });
        }
        Ok(Var::Name(self.literal_name()?))
    }

    pub fn var(&mut self) -> Result<Var, Stop>
        ensures ok { IfOk result (λ v. Reads grammar.var (texts.var_text v) self.old self.new) }
        ensures err { IfErr result (λ e. Halts (grammar.var ∷ []) self.old e) }
    {
        if let Some(place) = self.take_word(Keyword::Head) {
            return Ok(Var::Head { place });
        }
        Ok(Var::Name(self.name()?))
    }

    // Reads a variable and the sign behind it.
    pub fn var_before(&mut self, sign: Sign) -> Result<Var, Stop>
        ensures ok { IfOk result (λ v. Reads (Then grammar.var (grammar.mark sign))
            (texts.var_text v ▸ texts.mark sign) self.old self.new) }
        ensures err { IfErr result
            (λ e. Halts (Then grammar.var (grammar.mark sign) ∷ []) self.old e) }
    {
        let var = self.var()?;
        self.ended(var, sign)
    }

    fn bound(&mut self) -> Result<Bound, Stop>
        ensures ok { IfOk result (λ b. Reads grammar.bound (texts.bound_text b) self.old self.new) }
        ensures err { IfErr result (λ e. Halts (grammar.bound ∷ []) self.old e) }
    {
        if self.take_sign(Sign::AtMost).is_some() {
            return Ok(Bound::AtMost);
        }
        if self.take_sign(Sign::AtLeast).is_some() {
            return Ok(Bound::AtLeast);
        }
        self.sign(Sign::Equal)?;
        Ok(Bound::Equal)
    }

    pub fn compare(&mut self) -> Result<Compare, Stop>
        ensures ok { IfOk result (λ o. Reads grammar.compare (texts.compare_text o) self.old self.new) }
        ensures err { IfErr result (λ e. Halts (grammar.compare ∷ []) self.old e) }
    {
        if self.take_sign(Sign::Equal).is_some() {
            return Ok(Compare::Equal);
        }
        if self.take_sign(Sign::Differs).is_some() {
            return Ok(Compare::Differs);
        }
        if self.take_sign(Sign::Less).is_some() {
            return Ok(Compare::Less);
        }
        if self.take_sign(Sign::AtMost).is_some() {
            return Ok(Compare::AtMost);
        }
        if self.take_sign(Sign::Greater).is_some() {
            return Ok(Compare::Greater);
        }
        self.sign(Sign::AtLeast)?;
        Ok(Compare::AtLeast)
    }
}

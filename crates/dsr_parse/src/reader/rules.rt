// Rules.
ghost use Rattle.std.specs.Prelude.{IfOk, IfErr, ◌∷◌, []};
ghost use Rattle.dsr_syntax_theory.specs.Grammar as grammar;
ghost use Rattle.dsr_syntax_theory.specs.Phrases.{in_turn};
ghost use Rattle.dsr_syntax_theory.specs.Syntax.{Many};
ghost use Rattle.dsr_syntax_theory.specs.TreeTexts as texts;
ghost use Rattle.dsr_parse.specs.Ends as ends;
ghost use Rattle.dsr_parse.specs.Reading.{Reads, Halts, Found};

use crate::reader::{Reader, Stop, both};
use dsr_ir::Seq;
use dsr_tree::{
    Guard, Guards, Inclusion, Index, Keyword, Member, MemberPart, Path, PlacedName, Premise,
    RefTest, Rule, Sign, Span, Term,
};

impl<'a> Reader<'a> {
    pub fn rules(&mut self) -> Result<Vec<Rule>, Stop>
        ensures ok { IfOk result (λ rules. Reads (Many grammar.rule)
            (in_turn texts.rule_text rules.items) self.old self.new) }
        ensures err { IfErr result (λ e. Halts (Many grammar.rule ∷ []) self.old e) }
    {
        let mut rules = Vec::new(self.alloc);
        while self.is_word(Keyword::Rule) {
            rules.push(self.rule()?)?;
        }
        Ok(rules)
    }

    fn rule(&mut self) -> Result<Rule, Stop>
        ensures ok { IfOk result (λ r. Reads grammar.rule (texts.rule_text r) self.old self.new) }
        ensures err { IfErr result (λ e. Halts (grammar.rule ∷ []) self.old e) }
    {
        let place = self.word(Keyword::Rule)?;
        let premise = self.premise()?;
        let (premise, span) = both(premise, self.span())?;
        let (guards, inclusion) = self.rule_end()?;
        Ok(Rule {
            place,
            premise,
            span,
            guards,
            inclusion,
        })
    }

    // Reads what stands behind the index of a rule.
    fn rule_end(&mut self) -> Result<(Option<Guards>, Inclusion), Stop>
        ensures ok { IfOk result (λ r. Reads ends.rule_end (ends.rule_end_text r.0 r.1) self.old self.new) }
        ensures err { IfErr result (λ e. Halts (ends.rule_end ∷ []) self.old e) }
    {
        let guards = self.guards()?;
        both(guards, self.conclusion())
    }

    // Reads what a rule gives, to its end.
    fn conclusion(&mut self) -> Result<Inclusion, Stop>
        ensures ok { IfOk result (λ i. Reads ends.conclusion (ends.conclusion_text i) self.old self.new) }
        ensures err { IfErr result (λ e. Halts (ends.conclusion ∷ []) self.old e) }
    {
        self.sign(Sign::Gives)?;
        let inclusion = self.inclusion()?;
        self.ended(inclusion, Sign::Semicolon)
    }

    fn premise(&mut self) -> Result<Premise, Stop>
        ensures ok { IfOk result (λ p. Reads grammar.premise (texts.premise_text p) self.old self.new) }
        ensures err { IfErr result (λ e. Halts (grammar.premise ∷ []) self.old e) }
    {
        if let Some(place) = self.take_word(Keyword::Head) {
            return Ok(Premise::Head { place });
        }
        let name = self.name()?;
        let set = self.name_behind(Keyword::In)?;
        Ok(Premise::Member { name, set })
    }

    // Reads the index of a rule, where there is one.
    fn span(&mut self) -> Result<Option<Span>, Stop>
        ensures ok { IfOk result (λ span. Reads (grammar.maybe grammar.span)
            (texts.maybe_text texts.span_text span) self.old self.new) }
        ensures err { IfErr result (λ e. Halts (grammar.maybe grammar.span ∷ []) self.old e) }
    {
        if self.take_sign(Sign::Comma).is_none() {
            return Ok(None);
        }
        let name = self.name()?;
        self.word(Keyword::In)?;
        let index = self.index_source()?;
        Ok(Some(Span { name, index }))
    }

    // Reads what an index runs over.
    fn index_source(&mut self) -> Result<Index, Stop>
        ensures ok { IfOk result (λ i. Reads grammar.index_source
            (texts.index_source_text i) self.old self.new) }
        ensures err { IfErr result (λ e. Halts (grammar.index_source ∷ []) self.old e) }
    {
        if let Some(place) = self.take_word(Keyword::Pool) {
            let pool = self.name()?;
            return Ok(Index::Pool { place, pool });
        }
        Ok(Index::Array(self.name()?))
    }

    // Reads the guards of a rule, where there are any.
    fn guards(&mut self) -> Result<Option<Guards>, Stop>
        ensures ok { IfOk result (λ guards. Reads (grammar.maybe grammar.guards)
            (texts.maybe_text texts.guards_text guards) self.old self.new) }
        ensures err { IfErr result (λ e. Halts (grammar.maybe grammar.guards ∷ []) self.old e) }
    {
        if self.take_word(Keyword::When).is_none() {
            return Ok(None);
        }
        let first = self.guard()?;
        let (first, rest) = both(first, self.more_guards())?;
        Ok(Some(Guards {
            first,
            rest: Seq::new(rest),
        }))
    }

    // Reads the guards behind the first one.
    fn more_guards(&mut self) -> Result<Vec<Guard>, Stop>
        ensures ok { IfOk result (λ guards. Reads (Many grammar.more_guard)
            (in_turn texts.more_guard_text guards.items) self.old self.new) }
        ensures err { IfErr result (λ e. Halts (Many grammar.more_guard ∷ []) self.old e) }
    {
        let mut guards = Vec::new(self.alloc);
        while self.take_word(Keyword::And).is_some() {
            guards.push(self.guard()?)?;
        }
        Ok(guards)
    }

    fn guard(&mut self) -> Result<Guard, Stop>
        ensures ok { IfOk result (λ g. Reads grammar.guard (texts.guard_text g) self.old self.new) }
        ensures err { IfErr result (λ e. Halts (grammar.guard ∷ []) self.old e) }
    {
        if let Some((test, place)) = self.ref_test() {
            self.sign(Sign::OpenParenthesis)?;
            let path = self.path()?;
            return self.ended(Guard::Tested { place, test, path }, Sign::CloseParenthesis);
        }
        let path = self.path()?;
        let (path, compare) = both(path, self.compare())?;
        let number = self.number()?;
        Ok(Guard::Compared {
            path,
            compare,
            number,
        })
    }

    // Reads the keyword of a test where one is next, and gives its place.
    fn ref_test(&mut self) -> Option<(RefTest, u64)>
        ensures { Found grammar.ref_test texts.test_text self.old self.new result }
    {
        if let Some(place) = self.take_word(Keyword::Legal) {
            return Some((RefTest::Legal, place));
        }
        if let Some(place) = self.take_word(Keyword::Illegal) {
            return Some((RefTest::Illegal, place));
        }
        if let Some(place) = self.take_word(Keyword::None) {
            return Some((RefTest::None, place));
        }
        let place = self.take_word(Keyword::Some)?;
        Some((RefTest::Some, place))
    }

    fn path(&mut self) -> Result<Path, Stop>
        ensures ok { IfOk result (λ p. Reads grammar.path (texts.path_text p) self.old self.new) }
        ensures err { IfErr result (λ e. Halts (grammar.path ∷ []) self.old e) }
    {
        let var = self.var_before(Sign::Dot)?;
        let field = self.name()?;
        let index = self.index()?;
        Ok(Path { var, field, index })
    }

    // Reads an index in brackets, where there is one.
    fn index(&mut self) -> Result<Option<PlacedName>, Stop>
        ensures ok { IfOk result (λ index. Reads grammar.index
            (texts.maybe_text texts.index_text index) self.old self.new) }
        ensures err { IfErr result (λ e. Halts (grammar.index ∷ []) self.old e) }
    {
        if self.take_sign(Sign::OpenBracket).is_none() {
            return Ok(None);
        }
        Ok(Some(self.name_before(Sign::CloseBracket)?))
    }

    fn inclusion(&mut self) -> Result<Inclusion, Stop>
        ensures ok { IfOk result (λ i. Reads grammar.inclusion (texts.inclusion_text i) self.old self.new) }
        ensures err { IfErr result (λ e. Halts (grammar.inclusion ∷ []) self.old e) }
    {
        if self.is_sign(Sign::Less) {
            self.pair_inclusion()
        } else {
            self.member_inclusion()
        }
    }

    // Reads the inclusion of a pair.
    fn pair_inclusion(&mut self) -> Result<Inclusion, Stop>
        ensures ok { IfOk result (λ i. Reads grammar.pair_inclusion
            (texts.inclusion_text i) self.old self.new) }
        ensures err { IfErr result (λ e. Halts (grammar.pair_inclusion ∷ []) self.old e) }
    {
        let place = self.sign(Sign::Less)?;
        let term = self.term()?;
        let term = self.ended(term, Sign::Comma)?;
        let (term, (path, relation)) = both(term, self.pair_end())?;
        Ok(Inclusion::Pair {
            place,
            term,
            path,
            relation,
        })
    }

    // Reads what stands behind the comma of a pair.
    fn pair_end(&mut self) -> Result<(Path, PlacedName), Stop>
        ensures ok { IfOk result (λ p. Reads ends.pair_end (ends.pair_end_text p.0 p.1) self.old self.new) }
        ensures err { IfErr result (λ e. Halts (ends.pair_end ∷ []) self.old e) }
    {
        let path = self.path()?;
        let path = self.ended(path, Sign::Greater)?;
        both(path, self.name_behind(Keyword::In))
    }

    // Reads the inclusion of a member.
    fn member_inclusion(&mut self) -> Result<Inclusion, Stop>
        ensures ok { IfOk result (λ i. Reads grammar.member_inclusion
            (texts.inclusion_text i) self.old self.new) }
        ensures err { IfErr result (λ e. Halts (grammar.member_inclusion ∷ []) self.old e) }
    {
        let member = self.member()?;
        let (member, set) = both(member, self.name_behind(Keyword::In))?;
        Ok(Inclusion::Member { member, set })
    }

    fn term(&mut self) -> Result<Term, Stop>
        ensures ok { IfOk result (λ t. Reads grammar.term (texts.term_text t) self.old self.new) }
        ensures err { IfErr result (λ e. Halts (grammar.term ∷ []) self.old e) }
    {
        if let Some(place) = self.take_word(Keyword::Head) {
            return Ok(Term::Head { place });
        }
        let name = self.name()?;
        let index = self.index()?;
        Ok(Term::Named { name, index })
    }

    fn member(&mut self) -> Result<Member, Stop>
        ensures ok { IfOk result (λ m. Reads grammar.member (texts.member_text m) self.old self.new) }
        ensures err { IfErr result (λ e. Halts (grammar.member ∷ []) self.old e) }
    {
        let var = self.var()?;
        let part = self.member_part()?;
        Ok(Member { var, part })
    }

    // Reads what stands behind the variable of a member, where something does.
    fn member_part(&mut self) -> Result<Option<MemberPart>, Stop>
        ensures ok { IfOk result (λ part. Reads (grammar.maybe grammar.member_part)
            (texts.maybe_text texts.member_part_text part) self.old self.new) }
        ensures err { IfErr result (λ e. Halts (grammar.maybe grammar.member_part ∷ []) self.old e) }
    {
        if self.take_sign(Sign::Dot).is_some() {
            let field = self.name()?;
            let index = self.index()?;
            return Ok(Some(MemberPart::Field { field, index }));
        }
        if self.take_sign(Sign::OpenBracket).is_none() {
            return Ok(None);
        }
        let name = self.name_before(Sign::CloseBracket)?;
        Ok(Some(MemberPart::Slot(name)))
    }
}

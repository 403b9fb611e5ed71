// Expressions.
ghost use Rattle.std.specs.Prelude.{◌≤◌, IfOk, IfErr, ◌∷◌, []};
ghost use Rattle.dsr_tree.specs.Trees as shapes;
ghost use Rattle.dsr_syntax_theory.specs.Grammar as grammar;
ghost use Rattle.dsr_syntax_theory.specs.Phrases.{in_turn};
ghost use Rattle.dsr_syntax_theory.specs.Syntax.{Many, a_word};
ghost use Rattle.dsr_syntax_theory.specs.TreeTexts as texts;
ghost use Rattle.dsr_parse.specs.Reading.{Reads, Halts, Next, Found, said_term, said_factor};

use crate::reader::{Reader, Stop, both};
use dsr_tree::{Expr, Factor, Keyword, MoreFactor, MoreTerm, ProductSign, Sign, SumSign, Term2};

impl<'a> Reader<'a> {
    // Reads an expression, inside so many parentheses.
    #[cycle(expression)]
    pub fn expr(&mut self, depth: u64) -> Result<Expr, Stop>
        requires { depth ≤ 32 }
        ensures ok { IfOk result (λ e. Reads (grammar.expression depth)
            (texts.expr_text (shapes.expr_shape e)) self.old self.new) }
        ensures err { IfErr result (λ e. Halts (grammar.expression depth ∷ []) self.old e) }
    {
        let first = self.term2(depth)?;
        let (first, rest) = both(first, self.more_terms(depth))?;
        Ok(Expr { first, rest })
    }

    // Reads the terms behind the first one.
    #[cycle(expression)]
    fn more_terms(&mut self, depth: u64) -> Result<Vec<MoreTerm>, Stop>
        requires { depth ≤ 32 }
        ensures ok { IfOk result (λ terms. Reads (Many (grammar.more_term depth))
            (in_turn said_term terms.items) self.old self.new) }
        ensures err { IfErr result (λ e. Halts (Many (grammar.more_term depth) ∷ []) self.old e) }
    {
        let mut terms = Vec::new(self.alloc);
        while let Some(sign) = self.sum_sign()? {
            let term = self.term2(depth)?;
            terms.push(MoreTerm { sign, term })?;
        }
        Ok(terms)
    }

    #[cycle(expression)]
    fn term2(&mut self, depth: u64) -> Result<Term2, Stop>
        requires { depth ≤ 32 }
        ensures ok { IfOk result (λ t. Reads (grammar.term2 depth)
            (texts.term2_text (shapes.term_shape t)) self.old self.new) }
        ensures err { IfErr result (λ e. Halts (grammar.term2 depth ∷ []) self.old e) }
    {
        let first = self.factor(depth)?;
        let rest = self.more_factors(depth)?;
        Ok(Term2 { first, rest })
    }

    // Reads the factors behind the first one.
    #[cycle(expression)]
    fn more_factors(&mut self, depth: u64) -> Result<Vec<MoreFactor>, Stop>
        requires { depth ≤ 32 }
        ensures ok { IfOk result (λ factors. Reads (Many (grammar.more_factor depth))
            (in_turn said_factor factors.items) self.old self.new) }
        ensures err { IfErr result (λ e. Halts (Many (grammar.more_factor depth) ∷ []) self.old e) }
    {
        let mut factors = Vec::new(self.alloc);
        while let Some(sign) = self.product_sign()? {
            let factor = self.factor(depth)?;
            factors.push(MoreFactor { sign, factor })?;
        }
        Ok(factors)
    }

    #[cycle(expression)]
    fn factor(&mut self, depth: u64) -> Result<Factor, Stop>
        requires { depth ≤ 32 }
        ensures ok { IfOk result (λ f. Reads (grammar.factor depth)
            (texts.factor_text (shapes.factor_shape f)) self.old self.new) }
        ensures err { IfErr result (λ e. Halts (grammar.factor depth ∷ []) self.old e) }
    {
        if self.is_number() {
            return Ok(Factor::Number(self.number()?));
        }
        if self.is_name() {
            return Ok(Factor::Name(self.name()?));
        }
        let place = self.opening_sign(Sign::OpenParenthesis, depth)?;
        let inner = self.expr(depth + 1)?;
        let inner = self.ended(inner, Sign::CloseParenthesis)?;
        let inner = Box::new(self.alloc, inner)?;
        Ok(Factor::Group { place, inner })
    }

    // Reads the sign before a term, where one is next.
    fn sum_sign(&mut self) -> Result<Option<SumSign>, Stop>
        ensures ok { IfOk result (λ found. Found grammar.sum_sign texts.sum_text self.old self.new found) }
        ensures err { IfErr result (λ e. Halts (grammar.sum_sign ∷ []) self.old e) }
        ensures next { IfErr result (λ e. Next grammar.sum_sign self.old.rest) }
    {
        if self.is_sign(Sign::Plus) {
            self.operator(Sign::Plus)?;
            Ok(Some(SumSign::Plus))
        } else if self.is_sign(Sign::Minus) {
            self.operator(Sign::Minus)?;
            Ok(Some(SumSign::Minus))
        } else {
            Ok(None)
        }
    }

    // Reads the sign before a factor, where one is next.
    fn product_sign(&mut self) -> Result<Option<ProductSign>, Stop>
        ensures ok { IfOk result (λ found.
            Found grammar.product_sign texts.product_text self.old self.new found) }
        ensures err { IfErr result (λ e. Halts (grammar.product_sign ∷ []) self.old e) }
        ensures next { IfErr result (λ e. Next grammar.product_sign self.old.rest) }
    {
        if self.is_sign(Sign::Times) {
            self.operator(Sign::Times)?;
            Ok(Some(ProductSign::Times))
        } else if self.is_sign(Sign::Over) {
            self.operator(Sign::Over)?;
            Ok(Some(ProductSign::Over))
        } else {
            Ok(None)
        }
    }

    // Reads a whole expression behind a keyword.
    pub fn expr_behind(&mut self, keyword: Keyword) -> Result<Expr, Stop>
        ensures ok { IfOk result (λ e. Reads (grammar.expr_behind (a_word keyword))
            (texts.behind_text keyword (shapes.expr_shape e)) self.old self.new) }
        ensures err { IfErr result (λ e. Halts (grammar.expr_behind (a_word keyword) ∷ []) self.old e) }
    {
        self.starting_word(keyword)?;
        self.expr(0)
    }

    // Reads the length of an array or the count of a pool.
    pub fn brackets(&mut self) -> Result<Expr, Stop>
        ensures ok { IfOk result (λ e. Reads grammar.brackets
            (texts.brackets_text (shapes.expr_shape e)) self.old self.new) }
        ensures err { IfErr result (λ e. Halts (grammar.brackets ∷ []) self.old e) }
    {
        self.starting_sign(Sign::OpenBracket)?;
        let length = self.expr(0)?;
        self.ended(length, Sign::CloseBracket)
    }
}

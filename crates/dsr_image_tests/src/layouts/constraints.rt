// Constraints as lines give them.
use crate::words::Words;
use anyhow::{Result, bail};
use dsr_ir::{Atom, Bound, Conj, Constraint, Literal, Measure, Name, Op, Quant, Seq, Var};
use std::alloc::{AllocError, Global};

fn var_of(words: &mut Words) -> Var {
    match words.word() {
        "head" => Var::Head,
        "first" => Var::First,
        "second" => Var::Second,
        _ => {
            words.refuse();
            Var::Head
        }
    }
}

fn op_of(words: &mut Words) -> Op {
    match words.word() {
        "=" => Op::Eq,
        "!=" => Op::Ne,
        "<" => Op::Lt,
        "<=" => Op::Le,
        ">" => Op::Gt,
        ">=" => Op::Ge,
        _ => {
            words.refuse();
            Op::Eq
        }
    }
}

// What is counted, by the first of its words.
fn measure_of(word: &str, words: &mut Words) -> Measure {
    match word {
        "whole" => Measure::Whole(words.number()),
        "out" => Measure::Out(var_of(words), words.number()),
        "into" => Measure::Into(words.number(), var_of(words)),
        _ => {
            words.refuse();
            Measure::Whole(0)
        }
    }
}

fn bound_of(words: &mut Words) -> Bound {
    let word = words.word();
    match word.parse() {
        Ok(number) => Bound::Num(number),
        Err(_) => Bound::Size(measure_of(word, words)),
    }
}

fn atom_of(words: &mut Words) -> Atom {
    match words.word() {
        "member" => Atom::Member(var_of(words), words.number()),
        "count" => {
            let word = words.word();
            Atom::Count(measure_of(word, words), op_of(words), words.large_number())
        }
        "value" => Atom::Value(var_of(words), words.number(), op_of(words), bound_of(words)),
        _ => {
            words.refuse();
            Atom::Member(Var::Head, 0)
        }
    }
}

// A mark at the front, and what stands behind it.
fn marked<'a>(text: &'a str, mark: &str) -> (bool, &'a str) {
    match text.strip_prefix(mark) {
        Some(rest) => (true, rest),
        None => (false, text),
    }
}

fn literal_of(text: &str) -> Result<Literal> {
    let (given, text) = marked(text, "given ");
    let (negated, text) = marked(text, "not ");
    let mut words = Words::new(text);
    let atom = atom_of(&mut words);
    words.end()?;
    Ok(Literal {
        atom,
        negated,
        given,
    })
}

fn conj_of(alloc: Global, text: &str) -> Result<Conj> {
    let mut literals = Vec::new(alloc);
    for part in text.split(" and ") {
        literals.push(literal_of(part)?).map_err(AllocError::from)?;
    }
    Ok(Conj {
        literals: Seq::new(literals),
    })
}

// No conjunction is false.
fn conjs_of(alloc: Global, text: &str) -> Result<Vec<Conj>> {
    let mut conjs = Vec::new(alloc);
    if text == "false" {
        return Ok(conjs);
    }
    for part in text.split(" or ") {
        conjs.push(conj_of(alloc, part)?).map_err(AllocError::from)?;
    }
    Ok(conjs)
}

fn quantifier_of(text: &str) -> Result<Quant> {
    let mut words = Words::new(text);
    let quant = match words.word() {
        "once" => Quant::Once,
        "each" => Quant::Each(words.number()),
        "pairs" => Quant::Pairs(words.number()),
        _ => bail!("no quantifier: {text}"),
    };
    words.end()?;
    Ok(quant)
}

/// A constraint, which has no name.
pub fn constraint_of(alloc: Global, line: &str) -> Result<Constraint> {
    let Some((quant, conjs)) = line.split_once(", ") else {
        bail!("a constraint without a comma: {line}");
    };
    let quant = quantifier_of(quant)?;
    let conjs = conjs_of(alloc, conjs)?;
    Ok(Constraint {
        name: Name::new(Vec::new(alloc)),
        quant,
        conjs: Seq::new(conjs),
    })
}

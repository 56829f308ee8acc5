//! The parts of a condition, which `&&` and `||` join and `!` negates.
ghost use Rattle.std.specs.Prelude.{◌≡◌};
ghost use Rattle.asm_syntax.specs.Lexemes.{lexeme_of, piece_of, pieces_of};
ghost use Rattle.asm_syntax.specs.Outcome.{LineGives};
ghost use Rattle.asm_lex.specs.Operators.{is_sign};
ghost use Rattle.dap_expr.specs.Words.{exclamation};
ghost use Rattle.dap_expr.specs.Clauses as clauses;

use crate::term::{Term, term_in};
use crate::words::{AND, OR};
use asm_syntax::fault::LineFault;
use asm_syntax::token::{Placed, Token};
use std::alloc::Global;

/// What joins a part to those before it. `&&` binds stronger than `||`.
#[derive(Clone, Copy, PartialEq, Eq)]
pub enum Joint {
    And,
    Or,
}

/// What is taken of a part's value.
#[derive(Clone, Copy)]
pub enum Sense {
    /// The value itself.
    Plain,
    /// 0 if it is 0, else 1.
    Truth,
    /// 1 if it is 0, else 0.
    Not,
}

/// A part of a condition. The first one's joint is `Or`.
#[derive(Drop)]
pub struct Clause {
    pub joint: Joint,
    pub sense: Sense,
    pub term: Term,
}

/// The parts so far, and the tokens of the one that isn't complete.
#[derive(Drop)]
pub(crate) struct Draft<'a> {
    pub(crate) clauses: Vec<Clause>,
    pub(crate) joint: Joint,
    pub(crate) tokens: Vec<Placed<'a>>,
}

fn joint_of(token: Token<'_>) -> Option<Joint>
    ensures { result ≡ clauses.joint_of (lexeme_of token.entry) }
{
    match token {
        Token::Sign(AND) => Some(Joint::And),
        Token::Sign(OR) => Some(Joint::Or),
        _ => None,
    }
}

fn is_not(token: Token<'_>) -> bool
    ensures { result ≡ is_sign exclamation (lexeme_of token.entry) }
{
    match token {
        Token::Sign(sign) => sign == b'!',
        _ => false,
    }
}

fn opposite(sense: Sense) -> Sense
    ensures { result ≡ clauses.opposite sense }
{
    match sense {
        Sense::Plain | Sense::Truth => Sense::Not,
        Sense::Not => Sense::Truth,
    }
}

/// The part that these tokens are, by the signs `!` before it.
#[tactic(auto, unfolding(crate::specs::Clauses::clause_from))]
fn clause_of(alloc: Global, joint: Joint, tokens: &[Placed<'_>]) -> Result<Clause, LineFault>
    ensures { LineGives (λ c. c) result (clauses.clause_of joint (pieces_of tokens.now)) }
{
    let mut sense = Sense::Plain;
    for (index, placed) in tokens.iter().enumerate() {
        if !is_not(placed.token) {
            let term = term_in(alloc, tokens.split_at(index).1)?;
            return Ok(Clause { joint, sense, term });
        }
        sense = opposite(sense);
    }
    let term = term_in(alloc, &[])?;
    Ok(Clause { joint, sense, term })
}

/// Adds the part that is complete.
fn complete(alloc: Global, draft: &mut Draft<'_>) -> Result<(), LineFault>
    ensures { LineGives (λ _. clauses.draft_of draft.new) result
        (clauses.with_last_clause (clauses.draft_of draft.old)) }
{
    let clause = clause_of(alloc, draft.joint, &draft.tokens)?;
    draft.clauses.push(clause)?;
    draft.tokens.truncate(0);
    Ok(())
}

/// Adds a token.
fn step<'a>(alloc: Global, draft: &mut Draft<'a>, placed: Placed<'a>) -> Result<(), LineFault>
    ensures { LineGives (λ _. clauses.draft_of draft.new) result
        (clauses.step (clauses.draft_of draft.old) (piece_of placed.entry)) }
{
    match joint_of(placed.token) {
        Some(joint) => {
            complete(alloc, draft)?;
            draft.joint = joint;
            Ok(())
        }
        None => {
            draft.tokens.push(placed)?;
            Ok(())
        }
    }
}

/// The parts that tokens are.
#[tactic(auto, unfolding(crate::specs::Clauses::drafted_from))]
pub(crate) fn clauses(alloc: Global, tokens: &[Placed<'_>]) -> Result<Vec<Clause>, LineFault>
    ensures { LineGives (λ found. found.items) result (clauses.clauses_of (pieces_of tokens.now)) }
{
    let mut draft = Draft {
        clauses: Vec::new(alloc),
        joint: Joint::Or,
        tokens: Vec::new(alloc),
    };
    for placed in tokens {
        step(alloc, &mut draft, *placed)?;
    }
    complete(alloc, &mut draft)?;
    let Draft { clauses, .. } = draft;
    Ok(clauses)
}

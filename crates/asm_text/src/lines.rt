//! The statement of a line.
ghost use Rattle.std.specs.Prelude.{◌≡◌, is_some};
ghost use Rattle.asm_syntax.specs.Lexemes.{pieces_of, piece_of, lexeme_of};
ghost use Rattle.asm_syntax.specs.Outcome.{LineGives};
ghost use Rattle.asm_syntax.specs.Ascii.{colon};
ghost use Rattle.asm_lex.specs.Operators.{is_sign};
ghost use Rattle.asm_text.specs.Lines.{name_at, label_at, placed_well, definition_in, defined_by};
ghost use Rattle.asm_text.specs.Lines.{or_mnemonic, only_operand, definition_at, action_of, plain_at};
ghost use Rattle.asm_text.specs.Lines.{operation_at, line_of};

use crate::directives::directive;
use crate::forms::only_expression;
use crate::instructions::instruction;
use asm_expr::name::Name;
use asm_lex::lexer::tokens;
use asm_lex::words::misplaced_word;
use asm_syntax::fault::{FaultKind, LineFault};
use asm_syntax::keyword::{Directive, Keyword};
use asm_syntax::statement::{Action, Label, Operand, Operation, Statement};
use asm_syntax::token::{Placed, Token};
use std::alloc::Global;

/// The directives that define the name before them.
#[derive(Clone, Copy)]
pub enum Definition {
    Equate,
    Set,
}

// EQU or SET, and the column at which it stands.
#[derive(Clone, Copy)]
struct DefinitionWord {
    column: usize,
    definition: Definition,
}

// The name that a word is, or `None` if this is no word.
fn name_at(alloc: Global, placed: &Placed) -> Result<Option<Label>, LineFault>
    ensures { LineGives (λ x. x) result (name_at placed.now.column (lexeme_of placed.now.token)) }
{
    let column = placed.column;
    match placed.token {
        Token::Name(word) => {
            let name = Name::fold_case(alloc, word.letters)?;
            Ok(Some(Label { column, name }))
        }
        Token::Keyword(_) | Token::Overlong => Err(LineFault::At {
            column,
            kind: FaultKind::Name,
        }),
        _ => Ok(None),
    }
}

fn is_colon(token: &Token) -> bool
    ensures { result ≡ is_sign colon (lexeme_of token.now) }
{
    match token {
        Token::Sign(sign) => *sign == b':',
        _ => false,
    }
}

// The label of a line, and the tokens after it.
#[tactic(auto, unfolding(crate::specs::Lines::label_at))]
fn label_at<'a>(
    alloc: Global,
    tokens: &'a [Placed<'a>],
) -> Result<(Option<Label>, &'a [Placed<'a>]), LineFault>
    ensures { LineGives (λ x. (x.0, pieces_of x.1.now)) result (label_at (pieces_of tokens.now)) }
{
    match tokens {
        [] => Ok((None, tokens)),
        [_] => Ok((None, tokens)),
        [first, second, rest @ ..] => {
            if !is_colon(&second.token) {
                return Ok((None, tokens));
            }
            match name_at(alloc, first)? {
                Some(label) => Ok((Some(label), rest)),
                None => Ok((None, tokens)),
            }
        }
    }
}

// Fails if a word can't stand where it does.
fn placed_well(tokens: &[Placed]) -> Result<(), LineFault>
    ensures { LineGives (λ _. pieces_of tokens.now) result (placed_well (pieces_of tokens.now)) }
{
    match misplaced_word(tokens) {
        Some(column) => Err(LineFault::At {
            column,
            kind: FaultKind::Name,
        }),
        None => Ok(()),
    }
}

fn definition_in(token: &Token) -> Option<Definition>
    ensures { result ≡ definition_in (lexeme_of token.now) }
{
    match token {
        Token::Keyword(Keyword::Directive(Directive::Equate)) => Some(Definition::Equate),
        Token::Keyword(Keyword::Directive(Directive::Set)) => Some(Definition::Set),
        _ => None,
    }
}

fn defined_by(definition: Definition, name: Label, operand: Operand) -> Action
    ensures { result ≡ defined_by definition name operand }
{
    match definition {
        Definition::Equate => Action::Equate(name, operand),
        Definition::Set => Action::Set(name, operand),
    }
}

fn or_mnemonic(column: usize, name: Option<Label>) -> Result<Label, LineFault>
    ensures { LineGives (λ x. x) result (or_mnemonic column name) }
{
    match name {
        Some(label) => Ok(label),
        None => Err(LineFault::At {
            column,
            kind: FaultKind::Mnemonic,
        }),
    }
}

fn only_operand(
    alloc: Global,
    is_labelled: bool,
    column: usize,
    tokens: &[Placed],
) -> Result<Operand, LineFault>
    ensures { LineGives (λ x. x) result (only_operand is_labelled column (pieces_of tokens.now)) }
{
    if is_labelled {
        return Err(LineFault::At {
            column,
            kind: FaultKind::Operands,
        });
    }
    only_expression(alloc, column, tokens)
}

// The operation of a name, EQU or SET, and the tokens after that.
#[tactic(auto, unfolding(crate::specs::Lines::definition_at))]
fn definition_at(
    alloc: Global,
    is_labelled: bool,
    first: &Placed,
    word: DefinitionWord,
    rest: &[Placed],
) -> Result<Operation, LineFault>
    ensures { LineGives (λ x. x) result
        (definition_at is_labelled (piece_of first.now) word.column word.definition
        (pieces_of rest.now)) }
{
    let DefinitionWord { column, definition } = word;
    let name = or_mnemonic(first.column, name_at(alloc, first)?)?;
    placed_well(rest)?;
    let operand = only_operand(alloc, is_labelled, column, rest)?;
    let action = defined_by(definition, name, operand);
    Ok(Operation { column, action })
}

// The action of an operation's word and the operands after it.
#[tactic(auto, unfolding(crate::specs::Lines::action_of))]
fn action_of(
    alloc: Global,
    column: usize,
    token: &Token,
    rest: &[Placed],
) -> Result<Action, LineFault>
    ensures { LineGives (λ x. x) result (action_of column (lexeme_of token.now) (pieces_of rest.now)) }
{
    match token {
        Token::Keyword(Keyword::Mnemonic(mnemonic)) => {
            placed_well(rest)?;
            Ok(Action::Instruction(instruction(alloc, column, *mnemonic, rest)?))
        }
        Token::Keyword(Keyword::Directive(word)) => {
            placed_well(rest)?;
            directive(alloc, column, *word, rest)
        }
        _ => Err(LineFault::At {
            column,
            kind: FaultKind::Mnemonic,
        }),
    }
}

fn plain_at(alloc: Global, first: &Placed, rest: &[Placed]) -> Result<Operation, LineFault>
    ensures { LineGives (λ x. x) result (plain_at (piece_of first.now) (pieces_of rest.now)) }
{
    let column = first.column;
    let action = action_of(alloc, column, &first.token, rest)?;
    Ok(Operation { column, action })
}

// The operation of a line, after its label if it has one.
#[tactic(auto, unfolding(crate::specs::Lines::operation_at))]
fn operation_at(
    alloc: Global,
    is_labelled: bool,
    tokens: &[Placed],
) -> Result<Option<Operation>, LineFault>
    ensures { LineGives (λ x. x) result (operation_at is_labelled (pieces_of tokens.now)) }
{
    let Some((first, others)) = tokens.split_first() else {
        return Ok(None);
    };
    let Some((second, rest)) = others.split_first() else {
        return Ok(Some(plain_at(alloc, first, others)?));
    };
    match definition_in(&second.token) {
        Some(definition) => {
            let column = second.column;
            let word = DefinitionWord { column, definition };
            Ok(Some(definition_at(alloc, is_labelled, first, word, rest)?))
        }
        None => Ok(Some(plain_at(alloc, first, others)?)),
    }
}

/// The statement of a line, or its first fault.
#[tactic(auto, unfolding(crate::specs::Lines::line_of))]
pub fn statement(alloc: Global, line: &[u8]) -> Result<Statement, LineFault>
    ensures { LineGives (λ x. x) result (line_of line.now) }
{
    let placed = tokens(alloc, line)?;
    let (label, rest) = label_at(alloc, &placed)?;
    let operation = operation_at(alloc, label.is_some(), rest)?;
    Ok(Statement { label, operation })
}

//! The symbols of operators.
ghost use Rattle.std.specs.Prelude.{◌≡◌};
ghost use Rattle.inform_grammar.specs.Lexemes.{arrow, factor_sign, term_sign, relation_sign};

use inform_lexemes::Symbol;
use inform_tree::{ProdOp, Relation, SumOp};

/// The arrow before an index: `-->` for an array of words, `->` for one of bytes.
pub fn arrow(words: bool) -> Symbol
    ensures { result ≡ arrow words }
{
    if words {
        Symbol::WordArrow
    } else {
        Symbol::ByteArrow
    }
}

/// The sign before a further part of a sum.
pub fn term_sign(op: SumOp) -> Symbol
    ensures { result ≡ term_sign op }
{
    match op {
        SumOp::Add => Symbol::Plus,
        SumOp::Sub => Symbol::Minus,
    }
}

/// The sign before a further part of a product.
pub fn factor_sign(op: ProdOp) -> Symbol
    ensures { result ≡ factor_sign op }
{
    match op {
        ProdOp::Mul => Symbol::Times,
        ProdOp::Div => Symbol::Divide,
        ProdOp::Rem => Symbol::Remainder,
    }
}

/// The sign with which two values are compared.
pub fn relation_sign(relation: Relation) -> Symbol
    ensures { result ≡ relation_sign relation }
{
    match relation {
        Relation::Eq => Symbol::Equal,
        Relation::Ne => Symbol::NotEqual,
        Relation::Lt => Symbol::Less,
        Relation::Gt => Symbol::Greater,
        Relation::Le => Symbol::LessEqual,
        Relation::Ge => Symbol::GreaterEqual,
    }
}

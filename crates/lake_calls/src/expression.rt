//! Expressions as clients give them.
ghost use Rattle.std.specs.Prelude.{◌≡◌, ◌≤◌, ℕ, length, IfOk, MatchResult};
ghost use Rattle.commit_graph.specs.Expressions.{RefExprValue, IsExpression, IsStray};
ghost use Rattle.commit_graph.specs.declared.expression.ExprFault.TheVariants.{NoMemory as expr_no_memory};
ghost use Rattle.commit_graph.specs.declared.expression.ExprFault.{ExprFault as AnyFault};

use commit_graph::{ExprFault, RefExpr};
use lake_base::Text;
use std::alloc::Global;
use std::marker::Model;

/// The most bytes of an expression's text: what a body may have.
pub const EXPRESSION_LIMIT: usize = 67_108_864;

/// An expression with its text as a client gave it, of at most 67,108,864 bytes: what a body may have. The text is one
/// of the expression: a refusal shows it. Contracts see both.
#[derive(Debug, Drop)]
pub struct Expression {
    e: RefExpr,
    text: Text,
}

impl Model for Expression {
    ghost use Rattle.std.specs.Prelude.{◌≤◌, length};
    ghost use Rattle.commit_graph.specs.Expressions.{IsExpression};
    ghost use Rattle.lake_calls.specs.Calls.{ExpressionValue};

    ghost Value = { ExpressionValue };

    ghost view = { λ expression. record { e = expression.e; text = expression.text } };

    ghost invariant = { λ expression.
        IsExpression expression.e expression.text × (length expression.text ≤ 67108864) };
}

impl Expression {
    /// Reads a text of at most 67,108,864 bytes. Bad at the least place at which no expression goes on; NoMemory.
    pub fn read(alloc: Global, text: Text) -> Result<Expression, ExprFault>
        requires { length text ≤ 67108864 }
        ensures text { IfOk result (λ expression. expression.text ≡ text) }
        ensures only { (e : RefExprValue) → IsExpression e text
            → MatchResult result (λ expression. expression.e ≡ e) (λ fault. fault ≡ expr_no_memory) }
        ensures bad { (place : ℕ) → result ≡ Err (AnyFault.Bad place) → IsStray text place }
    {
        match RefExpr::read(alloc, text.as_slice()) {
            Ok(e) => Ok(Expression { e, text }),
            Err(fault) => Err(fault),
        }
    }

    /// The expression. It takes no memory.
    pub fn expr(&self) -> &RefExpr
        ensures { result.now ≡ self.now.e }
    {
        &self.e
    }

    /// Its text as it was given. It takes no memory.
    pub fn text(&self) -> &Text
        ensures { result.now ≡ self.now.text }
    {
        &self.text
    }
}
